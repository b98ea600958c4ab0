// Local answers, by a search in the working words.
ghost use Rattle.std.specs.Prelude.{◌≡◌, ◌<◌, ◌≤◌, set, replicate};
ghost use Rattle.model.specs.Contents.{node_body};
ghost use Rattle.model.specs.Distance.{dist};
ghost use Rattle.model.specs.Network.{network, distance, max_nodes, node_count};
ghost use Rattle.model.specs.Oracle.{no_walk, coded};
ghost use Rattle.algorithms.specs.Stops.{Stopped};
ghost use Rattle.sheet.specs.ArcsUnder.{arcs_under};
ghost use Rattle.arcs.specs.Leaving.{EdgesUnder};
ghost use Rattle.words.specs.Frames.{Enough, KeptFrom};
ghost use Rattle.opened.specs.Opened.{Opened};
ghost use Rattle.words.specs.Regions.{times_in, order_in, want_in, grid_at};

use reader::oracle::{EDGES, node_count, oracle_body};
use search::wanted::search_wanted_under;
use words::regions::{WANT, clear, put};
use words::times::time_of;

// The wanted set of a search has t alone.
fn want_only(work: &mut [u32], n: usize, t: usize)
    requires { (n ≤ max_nodes) × (t < n) × Enough n work.old }
    ensures members { want_in n work.new ≡ set (replicate n 0) t 1 }
    ensures others { KeptFrom (grid_at n) work.old work.new }
{
    clear(work, n, WANT);
    put(work, n, WANT, t);
}

// Searches from s until t is settled, over the edges as the lines of a sheet leave them. The search leaves what it likes before the grid.
pub fn search_to(
    edges: &[u8],
    lines: &[u8],
    n: usize,
    s: usize,
    t: usize,
    work: &mut [u32],
) -> usize
    requires { (n ≤ max_nodes) × (s < n) × (t < n) × Enough n work.old × EdgesUnder edges.now lines.now n work.old × (2 ≤ n) }
    ensures found { Stopped (arcs_under edges.now lines.now) n s (set (replicate n 0) t 1)
        (times_in n work.new) (order_in n result work.new) }
    ensures others { KeptFrom (grid_at n) work.old work.new }
{
    want_only(work, n, t);
    search_wanted_under(edges, lines, n, s, 1, work)
}

// The distance from s to t over them, as a key.
pub fn search_key(edges: &[u8], lines: &[u8], n: usize, s: usize, t: usize, work: &mut [u32]) -> u64
    requires { (n ≤ max_nodes) × (s < n) × (t < n) × Enough n work.old × EdgesUnder edges.now lines.now n work.old × (2 ≤ n) }
    ensures key { (result ≡ coded (dist (arcs_under edges.now lines.now) n s t)) × (result ≤ no_walk) }
    ensures others { KeptFrom (grid_at n) work.old work.new }
{
    search_to(edges, lines, n, s, t, work);
    time_of(work, n, t)
}

// The distance from s to t in the oracle's network. From a node to itself nothing is searched.
pub fn local_key(o: &[u8], s: usize, t: usize, work: &mut [u32]) -> u64
    requires { Opened o.now work.old × (s < node_count (node_body o.now)) × (t < node_count (node_body o.now)) }
    ensures key { (result ≡ coded (distance (network o.now) s t)) × (result ≤ no_walk) }
    ensures others { KeptFrom (grid_at (node_count (node_body o.now))) work.old work.new }
{
    if s == t {
        return 0;
    }
    let edges = oracle_body(o, EDGES);
    search_key(edges, &edges[..0], node_count(o), s, t, work)
}
