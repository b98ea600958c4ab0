// Body 6: the lists of the nodes, cell by cell. The starts need no comparing: lists that follow each other without gaps have them.
ghost use Rattle.std.specs.Prelude.{◌≡◌, ◌<◌, ◌≤◌};
ghost use Rattle.model.specs.Lists.{all, equal, up_to};
ghost use Rattle.model.specs.Bytes.{cut};
ghost use Rattle.model.specs.Network.{max_nodes};
ghost use Rattle.model.specs.Oracle.{list_part};
ghost use Rattle.algorithms.specs.Rounds.{distance_words};
ghost use Rattle.arcs.specs.Arcs.{arcs_in};
ghost use Rattle.index.specs.Index.{IndexedEdges};
ghost use Rattle.tables.specs.Premises.{ListedBelow};
ghost use Rattle.crossing.specs.Beside.{CellSquare};
ghost use Rattle.words.specs.Regions.{region_at, region, own, transit, times_in, search_words};
ghost use Rattle.emit.specs.Members.{Among};
ghost use Rattle.emit.specs.Parts.{list_bytes_of};
ghost use Rattle.passes.specs.Building.{members_in, access_of, transit_in};
ghost use Rattle.passes.specs.Sought.{Sought};
ghost use Rattle.words.specs.Frames.{Enough, KeptFrom};
ghost use Rattle.auditor.specs.Same.{KeepsLists, same_beside, same_of_cell, same_lists};

use crossing::cells::{beside, cell_square, first_of_cell};
use crossing::ground::Ground;
use emit::lists::same_list;
use grid::square::Square;
use passes::own::{own_wanted, search_own};
use tables::lists::list_part;
use words::regions::{OWN, TRANSIT, region};

// Whether b is the list of the times in region TIMES to the nodes of region OWN, with their indexes in region TRANSIT.
fn is_list(work: &[u32], n: usize, b: &[u8]) -> bool
    requires { (n ≤ max_nodes) × Enough n work.now × Among n (region n own work.now) (region n transit work.now) × (1 ≤ n) }
    ensures { result ≡ equal b.now (list_bytes_of (times_in n work.now) (members_in n transit work.now)
        (members_in n own work.now)) }
{
    same_list(n, region(work, n, OWN), region(work, n, TRANSIT), work, b)
}

// Whether the list of v in the access body is that of the times from v, by a search for the `left` access nodes of its cell.
fn same_from(edges: &[u8], access: &[u8], n: usize, v: usize, left: usize, work: &mut [u32]) -> bool
    requires n_le_max_nodes { (n ≤ max_nodes) × (v < n) × Enough n work.old × Among n (region n own work.old) (region n transit work.old) × ListedBelow access.now v
        × Sought n left work.old }
    requires indexed_edges { IndexedEdges edges.now n work.old }
    ensures same { result ≡ equal (cut (list_part access.now v) access.now)
        (list_bytes_of (distance_words (arcs_in edges.now) n v) (members_in n transit work.old)
        (members_in n own work.old)) }
    ensures others { KeptFrom (search_words n) work.old work.new }
{
    search_own(edges, n, v, left, work);
    is_list(work, n, list_part(access, v))
}

// Whether the list of v is the built one, where v has the cell of u, which the square is of. Region OWN has the `left` access nodes of that cell.
fn same_beside(
    ground: &Ground,
    square: Square,
    access: &[u8],
    u: usize,
    v: usize,
    left: usize,
    work: &mut [u32],
) -> bool
    requires on_ground { (u < ground.now.n) × (v < ground.now.n) × Enough ground.now.n work.old
        × KeepsLists ground.now.n access.now × CellSquare ground.now.nodes.now ground.now.grid u square }
    requires work_value { (members_in ground.now.n transit work.old ≡ transit_in ground.now.nodes.now ground.now.edges.now ground.now.grid)
        × (members_in ground.now.n own work.old ≡ access_of ground.now.nodes.now ground.now.edges.now ground.now.grid u) }
    requires sought { Sought ground.now.n left work.old × IndexedEdges ground.now.edges.now ground.now.n work.old }
    ensures same { result ≡ same_beside ground.now.nodes.now ground.now.edges.now ground.now.grid access.now u v }
    ensures others { KeptFrom (search_words ground.now.n) work.old work.new }
{
    if !beside(ground.nodes, square, v) {
        return true;
    }
    same_from(ground.edges, access, ground.n, v, left, work)
}

// Whether all lists of the cell of u are.
fn same_in_cell(ground: &Ground, access: &[u8], u: usize, left: usize, work: &mut [u32]) -> bool
    requires on_ground { (u < ground.now.n) × Enough ground.now.n work.old
        × KeepsLists ground.now.n access.now }
    requires work_value { (members_in ground.now.n transit work.old ≡ transit_in ground.now.nodes.now ground.now.edges.now ground.now.grid)
        × (members_in ground.now.n own work.old ≡ access_of ground.now.nodes.now ground.now.edges.now ground.now.grid u) }
    requires sought { Sought ground.now.n left work.old × IndexedEdges ground.now.edges.now ground.now.n work.old }
    ensures same { result ≡ all (same_beside ground.now.nodes.now ground.now.edges.now ground.now.grid access.now u) (up_to ground.now.n) }
    ensures others { KeptFrom (search_words ground.now.n) work.old work.new }
{
    let square = cell_square(ground.nodes, ground.grid, u);
    for v in 0..ground.n {
        if !same_beside(ground, square, access, u, v, left, work) {
            return false;
        }
    }
    true
}

// Whether they are, where u is the first node of its cell.
fn same_of_cell(ground: &Ground, access: &[u8], u: usize, work: &mut [u32]) -> bool
    requires on_ground { (u < ground.now.n) × Enough ground.now.n work.old
        × KeepsLists ground.now.n access.now }
    requires work_value { (members_in ground.now.n transit work.old
        ≡ transit_in ground.now.nodes.now ground.now.edges.now ground.now.grid) × IndexedEdges ground.now.edges.now ground.now.n work.old }
    ensures same { result ≡ same_of_cell ground.now.nodes.now ground.now.edges.now ground.now.grid access.now u }
    ensures others { KeptFrom (region_at ground.now.n transit) work.old work.new }
{
    if !first_of_cell(ground.nodes, ground.grid, u) {
        return true;
    }
    let left = own_wanted(ground, u, work);
    same_in_cell(ground, access, u, left, work)
}

// Whether all lists are the built ones.
pub fn same_lists(ground: &Ground, access: &[u8], work: &mut [u32]) -> bool
    requires on_ground { Enough ground.now.n work.old
        × KeepsLists ground.now.n access.now }
    requires work_value { (members_in ground.now.n transit work.old
        ≡ transit_in ground.now.nodes.now ground.now.edges.now ground.now.grid) × IndexedEdges ground.now.edges.now ground.now.n work.old }
    ensures same { result ≡ same_lists ground.now.nodes.now ground.now.edges.now ground.now.grid access.now }
    ensures others { KeptFrom (region_at ground.now.n transit) work.old work.new }
{
    for u in 0..ground.n {
        if !same_of_cell(ground, access, u, work) {
            return false;
        }
    }
    true
}
