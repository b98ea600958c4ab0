// Dijkstra's method (document 002, 2.1) from one node, in the first of the lent words: to every node.
ghost use Rattle.std.specs.Prelude.{◌<◌, ◌≤◌};
ghost use Rattle.model.specs.Lists.{Distinct};
ghost use Rattle.model.specs.Network.{max_nodes};
ghost use Rattle.algorithms.specs.Rounds.{Found};
ghost use Rattle.sheet.specs.ArcsUnder.{arcs_under};
ghost use Rattle.arcs.specs.Arcs.{arcs_in};
ghost use Rattle.arcs.specs.Leaving.{EdgesUnder};
ghost use Rattle.index.specs.Index.{IndexedEdges};
ghost use Rattle.words.specs.Regions.{times_in, order_in, search_words};
ghost use Rattle.words.specs.Frames.{Enough, KeptFrom};

use crate::rounds::{begin, finish, round};

// Searches from s over the edges as the lines of a sheet leave them, among two nodes or more: one alone has no edge, and nothing is searched there. In the
// words of a search then stand the times of all n nodes, and from position e of the order on the nodes that are reached, each once and the farthest first. The
// others stay. Left open: which of equally far nodes stands first, and what the other words of the search are.
pub fn search_front_under(edges: &[u8], lines: &[u8], n: usize, s: usize, work: &mut [u32]) -> usize
    requires n_le_max_nodes { (n ≤ max_nodes) × (s < n) × Enough n work.old × (2 ≤ n) }
    requires edges_under { EdgesUnder edges.now lines.now n work.old }
    ensures found { Found (arcs_under edges.now lines.now) n s (times_in n work.new)
        (order_in n result work.new) × (result ≤ n) × Distinct (order_in n result work.new) }
    ensures others { KeptFrom (search_words n) work.old work.new }
{
    let mut k = begin(work, n, s);
    let mut e = n;
    while 0 < k {
        k = round(edges, lines, n, k, e, work);
        e -= 1;
    }
    finish(work, n, e);
    e
}

// The same over the edges as they are, whose arcs the contracts of building speak of: without lines they are the same.
pub fn search_front(edges: &[u8], n: usize, s: usize, work: &mut [u32]) -> usize
    requires n_le_max_nodes { (n ≤ max_nodes) × (s < n) × Enough n work.old × (2 ≤ n) }
    requires indexed_edges { IndexedEdges edges.now n work.old }
    ensures found { Found (arcs_in edges.now) n s (times_in n work.new) (order_in n result work.new)
        × (result ≤ n) × Distinct (order_in n result work.new) }
    ensures others { KeptFrom (search_words n) work.old work.new }
{
    search_front_under(edges, &edges[..0], n, s, work)
}
