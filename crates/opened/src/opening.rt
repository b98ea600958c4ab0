// An opened oracle: the working words hold its grid and the index of its edges, so that many questions are answered after one check.
ghost use Rattle.std.specs.Prelude.{◌≡◌, true, ◌+◌, ◌<◌, ◌≤◌, length};
ghost use Rattle.model.specs.Contents.{node_body};
ghost use Rattle.model.specs.Network.{max_nodes, node_count};
ghost use Rattle.model.specs.Query.{kind_between};
ghost use Rattle.model.specs.Rules.{well_shaped, words_needed};
ghost use Rattle.grid.specs.Stored.{grid_of};
ghost use Rattle.checks.specs.Grids.{oracle_grid};
ghost use Rattle.words.specs.Frames.{KeptFrom};
ghost use Rattle.opened.specs.Opened.{grid_in, Opened};
ghost use Rattle.words.specs.Regions.{grid_at};

use checks::kinds::{grid_of, kind_in};
use grid::Grid;
use index::chains::build_index;
use model::Kind;
use reader::oracle::{EDGES, node_count, oracle_body};
use words::regions::grid_at;

fn put_grid(work: &mut [u32], n: usize, grid: Grid)
    requires { (n ≤ max_nodes) × (grid_at n + 4 ≤ length work.old) }
    ensures grid { grid_in n work.new ≡ grid_of grid }
    ensures others { KeptFrom (grid_at n + 4) work.old work.new }
{
    let a = grid_at(n);
    work[a..a + 4].copy_from_slice(&[grid.g, grid.left, grid.bottom, grid.spread]);
}

// The numbers of the grid that stand there.
fn grid_in(work: &[u32], n: usize) -> Grid
    requires { (n ≤ max_nodes) × (grid_at n + 4 ≤ length work.now) }
    ensures { grid_of result ≡ grid_in n work.now }
{
    let a = grid_at(n);
    Grid {
        g: work[a],
        left: work[a + 1],
        bottom: work[a + 2],
        spread: work[a + 3],
    }
}

// Opens an oracle that keeps the rules: its grid and the index of its edges stand in the words afterwards.
pub fn open_words(o: &[u8], work: &mut [u32])
    requires { (well_shaped o.now ≡ true) × (words_needed o.now ≤ length work.old) }
    ensures opened { Opened o.now work.new }
    ensures rest { KeptFrom (words_needed o.now) work.old work.new }
{
    let n = node_count(o);
    put_grid(work, n, grid_of(o));
    build_index(oracle_body(o, EDGES), n, work);
}

// The grid of an opened oracle.
pub fn opened_grid(o: &[u8], work: &[u32]) -> Grid
    requires { Opened o.now work.now }
    ensures { grid_of result ≡ oracle_grid o.now }
{
    grid_in(work, node_count(o))
}

// The kind of the pair s, t of an opened oracle.
pub fn opened_kind(o: &[u8], s: usize, t: usize, work: &[u32]) -> Kind
    requires { Opened o.now work.now × (s < node_count (node_body o.now)) × (t < node_count (node_body o.now)) }
    ensures { result ≡ kind_between o.now s t }
{
    kind_in(o, opened_grid(o, work), s, t)
}
