// The search of a row: from its start up to the ends that are local to it.
ghost use Rattle.std.specs.Prelude.{◌≡◌, false, ◌<◌, ◌≤◌, length, replicate};
ghost use Rattle.model.specs.Contents.{node_body};
ghost use Rattle.model.specs.Lists.{any};
ghost use Rattle.model.specs.Network.{node_count};
ghost use Rattle.model.specs.Rules.{no_such_node};
ghost use Rattle.algorithms.specs.Stops.{lacking};
ghost use Rattle.grid.specs.Stored.{grid_of};
ghost use Rattle.checks.specs.Grids.{oracle_grid};
ghost use Rattle.opened.specs.Opened.{Opened};
ghost use Rattle.words.specs.Frames.{KeptFrom};
ghost use Rattle.block.specs.Near.{wanted_in, Wants, WantsToo, WantedTimes, NearTimes};
ghost use Rattle.words.specs.Regions.{grid_at, search_words};

use checks::kinds::{is_local, kind_in};
use grid::Grid;
use reader::oracle::{EDGES, node_count, oracle_body};
use search::wanted::search_wanted;
use words::regions::{WANT, clear, has, put};
use words::times::store_time;

// Wants t where it is local to s. How many more nodes are wanted: none where t was wanted before.
fn want_end(o: &[u8], grid: Grid, s: usize, t: usize, work: &mut [u32]) -> usize
    requires { Opened o.now work.old × (grid_of grid ≡ oracle_grid o.now) × (s < node_count (node_body o.now)) × (t < node_count (node_body o.now)) }
    ensures wants { WantsToo o.now s t result (wanted_in o.now work.old) (wanted_in o.now work.new) }
    ensures others { KeptFrom (grid_at (node_count (node_body o.now))) work.old work.new }
{
    let n = node_count(o);
    if has(work, n, WANT, t) {
        return 0;
    }
    if is_local(kind_in(o, grid, s, t)) {
        put(work, n, WANT, t);
        return 1;
    }
    0
}

// Wants s and the ends that are local to it, and no others. How many are wanted beside s.
fn want_near(o: &[u8], grid: Grid, s: usize, ends: &[u32], work: &mut [u32]) -> usize
    requires { Opened o.now work.old × (grid_of grid ≡ oracle_grid o.now) × (s < node_count (node_body o.now))
        × (any (no_such_node o.now) ends.now ≡ false) }
    ensures wants { Wants o.now s ends.now (length ends.now) result (wanted_in o.now work.new) }
    ensures others { KeptFrom (grid_at (node_count (node_body o.now))) work.old work.new }
{
    let n = node_count(o);
    clear(work, n, WANT);
    put(work, n, WANT, s);
    let mut left = 0;
    for &t in ends {
        left += want_end(o, grid, s, t as usize, work);
    }
    left
}

// Searches from s until the wanted nodes are settled, of which there are at most `left`. The word of each is its time from s then.
fn search_until(o: &[u8], s: usize, left: usize, work: &mut [u32])
    requires opened { Opened o.now work.old × (s < node_count (node_body o.now)) × (2 ≤ node_count (node_body o.now)) }
    requires o_bound { lacking (wanted_in o.now work.old) (replicate (node_count (node_body o.now)) 0) ≤ left }
    ensures times { WantedTimes o.now s (wanted_in o.now work.old) work.new }
    ensures others { KeptFrom (search_words (node_count (node_body o.now))) work.old work.new }
{
    search_wanted(oracle_body(o, EDGES), node_count(o), s, left, work);
}

// The times from s to the ends that are local to it stand in the words afterwards. Where s is the only one, no search is made.
pub fn search_near(o: &[u8], grid: Grid, s: usize, ends: &[u32], work: &mut [u32])
    requires { Opened o.now work.old × (grid_of grid ≡ oracle_grid o.now) × (s < node_count (node_body o.now))
        × (any (no_such_node o.now) ends.now ≡ false) }
    ensures times { NearTimes o.now s ends.now work.new }
    ensures others { KeptFrom (grid_at (node_count (node_body o.now))) work.old work.new }
{
    let left = want_near(o, grid, s, ends, work);
    if left == 0 {
        store_time(work, node_count(o), s, 0);
        return;
    }
    search_until(o, s, left + 1, work);
}
