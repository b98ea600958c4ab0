// The access nodes of a node's cell.
ghost use Rattle.std.specs.Prelude.{◌≡◌, ◌<◌, ◌≤◌};
ghost use Rattle.model.specs.Network.{max_nodes};
ghost use Rattle.algorithms.specs.Rounds.{distance_words};
ghost use Rattle.arcs.specs.Arcs.{arcs_in};
ghost use Rattle.index.specs.Index.{IndexedEdges};
ghost use Rattle.words.specs.Regions.{region_at, own, transit, times_in, search_words};
ghost use Rattle.words.specs.Frames.{Enough, KeptFrom};
ghost use Rattle.emit.specs.Parts.{list_bytes_of};
ghost use Rattle.passes.specs.Building.{access_of, members_in};
ghost use Rattle.passes.specs.Sought.{Sought};

use access::cell::cell_access;
use access::sets::{count, unite};
use crossing::ground::Ground;
use search::wanted::search_wanted;
use words::regions::{OWN, WANT, clear};

// Makes region OWN the set of the access nodes of the cell of u. The regions from TRANSIT on stay.
pub fn own_access(ground: &Ground, u: usize, work: &mut [u32])
    requires on_ground { (u < ground.now.n) × Enough ground.now.n work.old }
    requires indexed_edges { IndexedEdges ground.now.edges.now ground.now.n work.old }
    ensures members { members_in ground.now.n own work.new ≡ access_of ground.now.nodes.now ground.now.edges.now ground.now.grid u }
    ensures others { KeptFrom (region_at ground.now.n transit) work.old work.new }
{
    let c = ground.grid.cell(ground.nodes, u);
    cell_access(ground, c, work);
}

// The same, and region WANT becomes the same set, so that searches may look for them. Answers how many they are.
pub fn own_wanted(ground: &Ground, u: usize, work: &mut [u32]) -> usize
    requires on_ground { (u < ground.now.n) × Enough ground.now.n work.old }
    requires indexed_edges { IndexedEdges ground.now.edges.now ground.now.n work.old }
    ensures members { members_in ground.now.n own work.new ≡ access_of ground.now.nodes.now ground.now.edges.now ground.now.grid u }
    ensures sought { Sought ground.now.n result work.new }
    ensures others { KeptFrom (region_at ground.now.n transit) work.old work.new }
{
    own_access(ground, u, work);
    clear(work, ground.n, WANT);
    unite(work, ground.n, OWN, WANT);
    count(work, ground.n, OWN)
}

// Searches from v for these `left` access nodes: the times that it leaves give the list of v. A list without access nodes has no times, so
// nothing is searched for it.
pub fn search_own(edges: &[u8], n: usize, v: usize, left: usize, work: &mut [u32])
    requires { (n ≤ max_nodes) × (v < n) × Enough n work.old × Sought n left work.old × IndexedEdges edges.now n work.old }
    ensures list { list_bytes_of (times_in n work.new) (members_in n transit work.new) (members_in n own work.new) ≡ list_bytes_of
        (distance_words (arcs_in edges.now) n v) (members_in n transit work.old) (members_in n own work.old) }
    ensures others { KeptFrom (search_words n) work.old work.new }
{
    if 0 < left {
        search_wanted(edges, n, v, left, work);
    }
}
