// The way, over the body of edges and the lines of a sheet alone.
ghost use Rattle.std.specs.Prelude.{[], ◌∷◌, ◌<◌, ◌≤◌};
ghost use Rattle.model.specs.Contents.{node_body};
ghost use Rattle.model.specs.Network.{max_nodes, node_count};
ghost use Rattle.sheet.specs.ArcsUnder.{arcs_under};
ghost use Rattle.arcs.specs.Leaving.{EdgesUnder};
ghost use Rattle.words.specs.Frames.{Enough, KeptFrom};
ghost use Rattle.opened.specs.Opened.{Opened};
ghost use Rattle.opened.specs.Room.{NodesGiven};
ghost use Rattle.opened.specs.TimesFrom.{TimesFrom, way_over};
ghost use Rattle.way.specs.Distances.{nodes_by};
ghost use Rattle.words.specs.Regions.{grid_at};

use crate::local::search_to;
use arcs::roads::Roads;
use codec::bytes::write16;
use codec::records::NUMBER_SIZE;
use model::Route;
use reader::oracle::{EDGES, node_count, oracle_body};
use search::front::search_front;
use way::after::LONGEST;
use way::whole::whole_way;

// The times are those from s afterwards.
pub fn times_from(o: &[u8], s: usize, work: &mut [u32])
    requires { Opened o.now work.old × (s < node_count (node_body o.now)) × (2 ≤ node_count (node_body o.now)) }
    ensures times { TimesFrom o.now s work.new }
    ensures others { KeptFrom (grid_at (node_count (node_body o.now))) work.old work.new }
{
    search_front(oracle_body(o, EDGES), node_count(o), s, work);
}

// Writes the way from s to itself, which has no other node.
pub fn write_way_itself(s: usize, out: &mut [u8]) -> Route
    requires { s < max_nodes }
    ensures { NodesGiven (s ∷ []) out.old result out.new }
{
    if out.len() < NUMBER_SIZE {
        return Route { rule: 15, nodes: 0 };
    }
    write16(out, 0, s as u32);
    Route { rule: 0, nodes: 1 }
}

// Writes the way from s at the front of the output, by the times in the working words. It is found before any output is written.
fn write_way_from(roads: &Roads, s: usize, out: &mut [u8]) -> Route
    requires { s < roads.now.n }
    ensures { NodesGiven (nodes_by roads.now s) out.old result out.new }
{
    let mut nodes = [0u8; LONGEST];
    let size = whole_way(roads, s, &mut nodes);
    if out.len() < size {
        return Route { rule: 15, nodes: 0 };
    }
    out[..size].copy_from_slice(&nodes[..size]);
    Route {
        rule: 0,
        nodes: (size / NUMBER_SIZE) as u32,
    }
}

// Writes the way from s to t at the front of the output, over the edges as the lines leave them. As edges run both ways, the search is from t; it ends when
// s is settled. From a node to itself nothing is searched.
pub fn write_way_to(
    edges: &[u8],
    lines: &[u8],
    n: usize,
    s: usize,
    t: usize,
    work: &mut [u32],
    out: &mut [u8],
) -> Route
    requires { (n ≤ max_nodes) × (s < n) × (t < n) × Enough n work.old × EdgesUnder edges.now lines.now n work.old }
    ensures given { NodesGiven (way_over (arcs_under edges.now lines.now) n s t) out.old result
        out.new }
    ensures others { KeptFrom (grid_at n) work.old work.new }
{
    if s == t {
        return write_way_itself(s, out);
    }
    search_to(edges, lines, n, t, s, work);
    let roads = Roads {
        edges,
        lines,
        n,
        work: &*work,
    };
    write_way_from(&roads, s, out)
}
