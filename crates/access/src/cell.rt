// The access nodes of a cell.
ghost use Rattle.std.specs.Prelude.{◌≡◌, ◌≤◌};
ghost use Rattle.model.specs.Network.{distance};
ghost use Rattle.model.specs.Access.{crossings, access_nodes};
ghost use Rattle.index.specs.Index.{IndexedEdges};
ghost use Rattle.grid.specs.Stored.{grid_of, model_cell};
ghost use Rattle.crossing.specs.Sets.{test_flags, member_flags};
ghost use Rattle.crossing.specs.Ground.{cells_in, edges_in};
ghost use Rattle.crossing.specs.AccessFlags.{through};
ghost use Rattle.words.specs.Regions.{region_at, region_flags, own, gathered, transit};
ghost use Rattle.words.specs.Frames.{Enough, KeptFrom};
ghost use Rattle.access.specs.Networks.{network_in};

use crate::crossings::put_crossings;
use crate::gather::gather;
use crate::sets::meet;
use crossing::ground::Ground;
use grid::Cell;
use words::regions::{GATHERED, OWN, WANT};

// Makes region GATHERED the set of the nodes on least walks from a crossing node of c to one of its outer square.
fn cell_gather(ground: &Ground, c: Cell, work: &mut [u32])
    requires on_ground { Enough ground.now.n work.old × (1 ≤ ground.now.n) }
    requires indexed_edges { IndexedEdges ground.now.edges.now ground.now.n work.old }
    ensures members { region_flags ground.now.n gathered work.new ≡ test_flags
        (through (distance (network_in ground.now.nodes.now ground.now.edges.now))
        (crossings (cells_in ground.now.grid ground.now.nodes.now) (edges_in ground.now.edges.now) 0 (model_cell c))
        (crossings (cells_in ground.now.grid ground.now.nodes.now) (edges_in ground.now.edges.now)
        (grid_of ground.now.grid).outer (model_cell c))) ground.now.n }
    ensures others { KeptFrom (region_at ground.now.n transit) work.old work.new }
{
    put_crossings(
        ground.nodes,
        ground.edges,
        ground.grid.square(c, 0),
        ground.n,
        OWN,
        work,
    );
    put_crossings(
        ground.nodes,
        ground.edges,
        ground.grid.outer_square(c),
        ground.n,
        WANT,
        work,
    );
    gather(ground.edges, ground.n, work);
}

// Makes region OWN the set of the access nodes of c. The regions from TRANSIT on stay.
pub fn cell_access(ground: &Ground, c: Cell, work: &mut [u32])
    requires on_ground { Enough ground.now.n work.old × (1 ≤ ground.now.n) }
    requires indexed_edges { IndexedEdges ground.now.edges.now ground.now.n work.old }
    ensures members { region_flags ground.now.n own work.new ≡ member_flags ground.now.n
        (access_nodes (distance (network_in ground.now.nodes.now ground.now.edges.now))
        (grid_of ground.now.grid) (cells_in ground.now.grid ground.now.nodes.now) (edges_in ground.now.edges.now) (model_cell c)) }
    ensures others { KeptFrom (region_at ground.now.n transit) work.old work.new }
{
    cell_gather(ground, c, work);
    put_crossings(
        ground.nodes,
        ground.edges,
        ground.grid.inner_square(c),
        ground.n,
        WANT,
        work,
    );
    meet(work, ground.n, WANT, GATHERED, OWN);
}
