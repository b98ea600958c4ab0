// The rows of a block of keys. One search for each start with an end near it other than itself, up to the ends near it, and none for a start that is
// named again; far pairs are answered from the lists and the table.
ghost use Rattle.std.specs.Prelude.{◌≡◌, false, [], ◌+◌, ◌<◌, ◌≤◌, length, get_or, take, set};
ghost use Rattle.model.specs.Lists.{any};
ghost use Rattle.model.specs.Contents.{node_body};
ghost use Rattle.model.specs.Network.{node_count};
ghost use Rattle.model.specs.Query.{time_word};
ghost use Rattle.model.specs.Rules.{no_such_node};
ghost use Rattle.grid.specs.Stored.{grid_of};
ghost use Rattle.checks.specs.Grids.{oracle_grid};
ghost use Rattle.opened.specs.Opened.{Opened};
ghost use Rattle.words.specs.Frames.{KeptFrom};
ghost use Rattle.block.specs.Block.{max_names, row_by, unused_row, block_by};
ghost use Rattle.block.specs.Near.{NearTime, NearTimes};
ghost use Rattle.words.specs.Regions.{grid_at};

use crate::near::search_near;
use grid::Grid;
use opened::answers::{far_of, key_of};
use opened::opening::opened_grid;
use reader::oracle::node_count;
use words::regions::{WANT, has};
use words::times::time_of;

// The entry (02's square) of s and t, a key: the time that the search from s has left where t is local, else by the lists and the table.
fn entry_of(o: &[u8], s: usize, t: usize, work: &[u32]) -> u64
    requires { Opened o.now work.now × (s < node_count (node_body o.now)) × (t < node_count (node_body o.now)) × NearTime o.now s t work.now }
    ensures { result ≡ time_word o.now s t }
{
    let n = node_count(o);
    if has(work, n, WANT, t) {
        return time_of(work, n, t);
    }
    key_of(far_of(o, s, t))
}

// The block with the entries of s in its row i, which was unused.
fn with_entries(
    keys: [[u64; 12]; 12],
    i: usize,
    o: &[u8],
    s: usize,
    ends: &[u32],
    work: &[u32],
) -> [[u64; 12]; 12]
    requires opened { Opened o.now work.now × (s < node_count (node_body o.now)) × (any (no_such_node o.now) ends.now ≡ false)
        × (length ends.now ≤ max_names) }
    requires near_times { NearTimes o.now s ends.now work.now × (i < max_names) × (get_or keys i [] ≡ unused_row) }
    ensures { result ≡ set keys i (row_by (time_word o.now) ends.now s) }
{
    let mut filled = keys;
    for j in 0..ends.len() {
        filled[i][j] = entry_of(o, s, ends[j] as usize, work);
    }
    filled
}

// The same, after the search that the row asks for.
fn with_row(
    keys: [[u64; 12]; 12],
    i: usize,
    o: &[u8],
    grid: Grid,
    s: usize,
    ends: &[u32],
    work: &mut [u32],
) -> [[u64; 12]; 12]
    requires opened { Opened o.now work.old × (grid_of grid ≡ oracle_grid o.now) × (s < node_count (node_body o.now))
        × (any (no_such_node o.now) ends.now ≡ false) × (length ends.now ≤ max_names) }
    requires i_lt_max_names { (i < max_names) × (get_or keys i [] ≡ unused_row) }
    ensures keys { result ≡ set keys i (row_by (time_word o.now) ends.now s) }
    ensures others { KeptFrom (grid_at (node_count (node_body o.now))) work.old work.new }
{
    search_near(o, grid, s, ends, work);
    with_entries(keys, i, o, s, ends, work)
}

// Where the name at i was named first.
fn first_named(names: &[u32], i: usize) -> usize
    requires { i < length names.now }
    ensures { (result ≤ i) × (get_or names.now result 0 ≡ get_or names.now i 0) }
{
    let named = names[i];
    names[..i]
        .iter()
        .position(|&name| name == named)
        .unwrap_or(i)
}

// The block with row k in row i too.
fn with_row_again(keys: [[u64; 12]; 12], i: usize, k: usize) -> [[u64; 12]; 12]
    requires { (i < max_names) × (k < max_names) }
    ensures { result ≡ set keys i (get_or keys k []) }
{
    let mut filled = keys;
    filled[i] = keys[k];
    filled
}

// The block with the row of start i after those before it. A start that is named again takes the row that it has.
fn with_start(
    keys: [[u64; 12]; 12],
    i: usize,
    o: &[u8],
    grid: Grid,
    starts: &[u32],
    ends: &[u32],
    work: &mut [u32],
) -> [[u64; 12]; 12]
    requires opened { Opened o.now work.old × (grid_of grid ≡ oracle_grid o.now) × (any (no_such_node o.now) starts.now ≡ false)
        × (any (no_such_node o.now) ends.now ≡ false) }
    requires starts_len_bound { (length starts.now ≤ max_names) × (length ends.now ≤ max_names) × (i < length starts.now)
        × (keys ≡ block_by (time_word o.now) (take i starts.now) ends.now) }
    ensures keys { result ≡ block_by (time_word o.now) (take (i + 1) starts.now) ends.now }
    ensures others { KeptFrom (grid_at (node_count (node_body o.now))) work.old work.new }
{
    let k = first_named(starts, i);
    if k < i {
        return with_row_again(keys, i, k);
    }
    with_row(keys, i, o, grid, starts[i] as usize, ends, work)
}

// The keys between two lists of one to twelve nodes.
pub fn keys_between(o: &[u8], starts: &[u32], ends: &[u32], work: &mut [u32]) -> [[u64; 12]; 12]
    requires opened { Opened o.now work.old × (any (no_such_node o.now) starts.now ≡ false) × (any (no_such_node o.now) ends.now ≡ false) }
    requires starts_len_bound { (length starts.now ≤ max_names) × (length ends.now ≤ max_names) }
    ensures keys { result ≡ block_by (time_word o.now) starts.now ends.now }
    ensures others { KeptFrom (grid_at (node_count (node_body o.now))) work.old work.new }
{
    let grid = opened_grid(o, work);
    let mut keys = [[0u64; 12]; 12];
    for i in 0..starts.len() {
        let filled = with_start(keys, i, o, grid, starts, ends, work);
        keys = filled;
    }
    keys
}
