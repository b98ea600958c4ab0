// Dijkstra's method (document 002, 2.1) from one node, up to the wanted nodes.
ghost use Rattle.std.specs.Prelude.{◌≡◌, ◌+◌, ◌-◌, ◌<◌, ◌≤◌, get_or, replicate};
ghost use Rattle.model.specs.Network.{max_nodes};
ghost use Rattle.algorithms.specs.Dijkstra.{at};
ghost use Rattle.algorithms.specs.Stops.{Stopped, lacking};
ghost use Rattle.sheet.specs.ArcsUnder.{arcs_under};
ghost use Rattle.arcs.specs.Arcs.{arcs_in};
ghost use Rattle.arcs.specs.Leaving.{EdgesUnder};
ghost use Rattle.heap.specs.Words.{low};
ghost use Rattle.index.specs.Index.{IndexedEdges};
ghost use Rattle.words.specs.Regions.{times_in, order_in, want_in, search_words};
ghost use Rattle.words.specs.Frames.{Enough, KeptFrom};

use crate::rounds::{begin, finish, round};
use bitset::bits::contains;
use heap::positions::HALF;
use words::regions::search_words;

// How many wanted nodes are lacking, where `left` were before the node at position e of the order was settled.
fn left_then(work: &[u32], n: usize, e: usize, left: usize) -> usize
    requires { (n ≤ max_nodes) × (e < n) × (0 < left) × Enough n work.now × (low (get_or work.now (n + e) 0) < n) }
    ensures { result ≡ left - at (want_in n work.now) (low (get_or work.now (n + e) 0)) }
{
    let m = search_words(n);
    let u = (work[n + e] % HALF) as usize;
    if contains(&work[m..], u) {
        return left - 1;
    }
    left
}

// Searches from s over the edges as the lines of a sheet leave them, among two nodes or more, until every wanted node is settled, of which there are at most
// `left`, or no reached node is left. The wanted nodes are a set whose bits stand behind the words of the search. In those then stand the times of the settled
// nodes and of the wanted ones, and from position e of the order on the settled nodes, the farthest first. The others stay. Left open: which of equally far
// nodes stands first, and what the other words of the search are.
pub fn search_wanted_under(
    edges: &[u8],
    lines: &[u8],
    n: usize,
    s: usize,
    left: usize,
    work: &mut [u32],
) -> usize
    requires n_le_max_nodes { (n ≤ max_nodes) × (s < n) × Enough n work.old × (lacking (want_in n work.old) (replicate n 0) ≤ left) × (2 ≤ n) }
    requires edges_under { EdgesUnder edges.now lines.now n work.old }
    ensures found { Stopped (arcs_under edges.now lines.now) n s (want_in n work.old)
        (times_in n work.new) (order_in n result work.new) × (result ≤ n) }
    ensures others { KeptFrom (search_words n) work.old work.new }
{
    let mut k = begin(work, n, s);
    let mut e = n;
    let mut lacking = left;
    while 0 < k && 0 < lacking {
        k = round(edges, lines, n, k, e, work);
        e -= 1;
        lacking = left_then(work, n, e, lacking);
    }
    finish(work, n, e);
    e
}

// The same over the edges as they are, whose arcs the contracts of building speak of: without lines they are the same.
pub fn search_wanted(edges: &[u8], n: usize, s: usize, left: usize, work: &mut [u32]) -> usize
    requires n_le_max_nodes { (n ≤ max_nodes) × (s < n) × Enough n work.old × (lacking (want_in n work.old) (replicate n 0) ≤ left) × (2 ≤ n) }
    requires indexed_edges { IndexedEdges edges.now n work.old }
    ensures found { Stopped (arcs_in edges.now) n s (want_in n work.old) (times_in n work.new)
        (order_in n result work.new) × (result ≤ n) }
    ensures others { KeptFrom (search_words n) work.old work.new }
{
    search_wanted_under(edges, &edges[..0], n, s, left, work)
}
