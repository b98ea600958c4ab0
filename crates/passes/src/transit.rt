// The transit nodes, and how many access nodes each node has: a pass over the cells, each by its first node.
ghost use Rattle.std.specs.Prelude.{◌≡◌, cond, ℕ, ◌+◌, ◌<◌, ◌≤◌, length};
ghost use Rattle.index.specs.Index.{IndexedEdges};
ghost use Rattle.crossing.specs.Beside.{CellSquare};
ghost use Rattle.crossing.specs.Cells.{same_cell};
ghost use Rattle.crossing.specs.Ground.{cells_in};
ghost use Rattle.words.specs.Halves.{half_words};
ghost use Rattle.words.specs.Regions.{region_at, transit, counts, count_of, put_count, index_at};
ghost use Rattle.passes.specs.Building.{access_of, transit_in, members_in};
ghost use Rattle.passes.specs.Passed.{CellsPassed};
ghost use Rattle.words.specs.Frames.{OnlyIn, Enough, KeptFrom};

use crate::own::own_access;
use access::sets::{count, unite};
use crossing::cells::{beside, cell_square, first_of_cell};
use crossing::ground::Ground;
use grid::square::Square;
use words::regions::{OWN, TRANSIT, clear, put_count};

// Stores k for v, if v has the cell of u, which the square is of.
fn put_beside(ground: &Ground, square: Square, u: usize, v: usize, k: usize, work: &mut [u32])
    requires { CellSquare ground.now.nodes.now ground.now.grid u square × (v < ground.now.n) × (k ≤ ground.now.n) × Enough ground.now.n work.old }
    ensures { work.new ≡ cond (same_cell (cells_in ground.now.grid ground.now.nodes.now) u v) (put_count ground.now.n work.old v k)
        work.old }
{
    if beside(ground.nodes, square, v) {
        put_count(work, ground.n, v, k);
    }
}

// Stores k for each node of the cell of u.
fn put_counts(ground: &Ground, u: usize, k: usize, work: &mut [u32])
    requires { (u < ground.now.n) × (k ≤ ground.now.n) × Enough ground.now.n work.old }
    ensures counted { (v : ℕ) → v < ground.now.n → count_of ground.now.n work.new v
        ≡ cond (same_cell (cells_in ground.now.grid ground.now.nodes.now) u v) k
        (count_of ground.now.n work.old v) }
    ensures others { OnlyIn (region_at ground.now.n counts) (half_words ground.now.n) work.old work.new }
{
    let square = cell_square(ground.nodes, ground.grid, u);
    for v in 0..ground.n {
        put_beside(ground, square, u, v, k, work);
    }
}

// Sees to the nodes of the cell of u, if u is its first node.
fn pass_cell(ground: &Ground, u: usize, work: &mut [u32])
    requires on_ground { (u < ground.now.n) × Enough ground.now.n work.old }
    requires cells_passed { CellsPassed ground.now.nodes.now ground.now.edges.now ground.now.grid ground.now.n u work.old
        × IndexedEdges ground.now.edges.now ground.now.n work.old }
    ensures passed { CellsPassed ground.now.nodes.now ground.now.edges.now ground.now.grid ground.now.n (u + 1) work.new }
    ensures others { KeptFrom (index_at ground.now.n) work.old work.new }
{
    if first_of_cell(ground.nodes, ground.grid, u) {
        own_access(ground, u, work);
        let k = count(work, ground.n, OWN);
        unite(work, ground.n, OWN, TRANSIT);
        put_counts(ground, u, k, work);
    }
}

// Makes region TRANSIT the set of the transit nodes, and the count of each node the number of access nodes of its cell. The words after the regions stay.
pub fn mark_transit(ground: &Ground, work: &mut [u32])
    requires on_ground { Enough ground.now.n work.old × (1 ≤ ground.now.n) }
    requires indexed_edges { IndexedEdges ground.now.edges.now ground.now.n work.old }
    ensures members { members_in ground.now.n transit work.new ≡ transit_in ground.now.nodes.now ground.now.edges.now ground.now.grid }
    ensures counted { (v : ℕ) → v < ground.now.n → count_of ground.now.n work.new v ≡ length
        (access_of ground.now.nodes.now ground.now.edges.now ground.now.grid v) }
    ensures others { KeptFrom (index_at ground.now.n) work.old work.new }
{
    clear(work, ground.n, TRANSIT);
    for u in 0..ground.n {
        pass_cell(ground, u, work);
    }
}
