// Bodies 5 to 7 against those that building writes from bodies 1 to 4.
ghost use Rattle.std.specs.Prelude.{◌≡◌, true, not, ◌*◌, ◌≤◌};
ghost use Rattle.model.specs.Contents.{node_body};
ghost use Rattle.model.specs.Network.{node_count};
ghost use Rattle.model.specs.Rules.{well_shaped, differs_from_built, work_words};
ghost use Rattle.words.specs.Frames.{Enough, KeptFrom};
ghost use Rattle.auditor.specs.Same.{KeepsLists, same_bodies};

use crate::lists::same_lists;
use crate::rows::same_table;
use crate::transit::same_transit;
use checks::kinds::grid_of;
use codec::records::{NUMBER_SIZE, VALUE_SIZE};
use crossing::ground::Ground;
use index::chains::build_index;
use passes::transit::mark_transit;
use reader::oracle::{ACCESS, EDGES, NODES, TABLE, TRANSIT, oracle_contents};

// Compares the bodies one after the other, by the index of the edges; the first difference ends it.
fn same_bodies(
    ground: &Ground,
    transit: &[u8],
    access: &[u8],
    table: &[u8],
    work: &mut [u32],
) -> bool
    requires { Enough ground.now.n work.old × KeepsLists ground.now.n access.now × (1 ≤ ground.now.n) }
    ensures same { result ≡ same_bodies ground.now.nodes.now ground.now.edges.now ground.now.grid transit.now access.now
        table.now }
    ensures rest { KeptFrom (work_words ground.now.n) work.old work.new }
{
    build_index(ground.edges, ground.n, work);
    mark_transit(ground, work);
    if !same_transit(work, ground.n, transit) {
        return false;
    }
    if !same_lists(ground, access, work) {
        return false;
    }
    let size = VALUE_SIZE * (transit.len() / NUMBER_SIZE);
    same_table(ground.edges, ground.n, size, table, work)
}

// Whether the oracle, of n nodes, is the one built from its bodies 1 to 4.
pub fn is_built(o: &[u8], n: usize, work: &mut [u32]) -> bool
    requires { (well_shaped o.now ≡ true) × (n ≡ node_count (node_body o.now)) × Enough n work.old }
    ensures same { result ≡ not (differs_from_built o.now) }
    ensures rest { KeptFrom (work_words n) work.old work.new }
{
    let grid = grid_of(o);
    let c = oracle_contents(o);
    let ground = Ground {
        nodes: c.body(o, NODES),
        edges: c.body(o, EDGES),
        grid,
        n,
    };
    same_bodies(
        &ground,
        c.body(o, TRANSIT),
        c.body(o, ACCESS),
        c.body(o, TABLE),
        work,
    )
}
