// The crossing nodes of a square of cells. An edge that crosses the square has an end inside it, so it is listed there: the edges of the nodes outside are
// not looked at.
ghost use Rattle.std.specs.Prelude.{◌≡◌, false, cond, ◌+◌, ◌<◌, ◌≤◌, length, set};
ghost use Rattle.model.specs.Network.{max_nodes, edge, edge_count, node_count, some_edge_broken};
ghost use Rattle.model.specs.Access.{crossing_end};
ghost use Rattle.bitset.specs.Bits.{set_words};
ghost use Rattle.index.specs.Index.{Incident, IndexedEdges};
ghost use Rattle.crossing.specs.Beside.{crosses_square};
ghost use Rattle.words.specs.Regions.{region_at, region_flags, index_at};
ghost use Rattle.access.specs.Crossed.{Put, CrossingsOf};
ghost use Rattle.words.specs.Frames.{Only, Enough};

use arcs::cursor::{first_edge, next_edge};
use codec::records::EDGE_SIZE;
use crossing::square::{crosses_edge, crossing_end};
use grid::square::Square;
use words::regions::{clear, put};

// Puts the crossing node of edge i into region k, where the edge crosses the square.
fn put_crossing(
    nodes: &[u8],
    edges: &[u8],
    square: Square,
    i: usize,
    n: usize,
    k: usize,
    work: &mut [u32],
)
    requires { (n ≡ node_count nodes.now) × (some_edge_broken n edges.now ≡ false) × (i < edge_count edges.now)
        × (region_at n k + set_words n ≤ length work.old) }
    ensures members { region_flags n k work.new ≡ cond (crosses_square nodes.now square (edge edges.now i))
        (set (region_flags n k work.old) (crossing_end (edge edges.now i)) 1) (region_flags n k work.old) }
    ensures others { Only n k work.old work.new }
{
    if crosses_edge(nodes, edges, square, i) {
        put(work, n, k, crossing_end(edges, i));
    }
}

// The same for the edges at v.
fn put_crossings_at(
    nodes: &[u8],
    edges: &[u8],
    square: Square,
    v: usize,
    n: usize,
    k: usize,
    work: &mut [u32],
)
    requires n_value { (n ≡ node_count nodes.now) × (n ≤ max_nodes) × Enough n work.old × (v < n) × (region_at n k + set_words n ≤ index_at n) }
    requires indexed_edges { IndexedEdges edges.now n work.old }
    ensures { Put nodes.now edges.now square (Incident edges.now v) n k
        work.old work.new }
{
    let m = edges.len() / EDGE_SIZE;
    let mut c = first_edge(edges, n, work, v);
    // A cursor and no range: the index links the edges at v, from one to the next.
    while c.edge < m {
        put_crossing(nodes, edges, square, c.edge, n, k, work);
        c = next_edge(edges, n, work, v, c);
    }
}

// Makes region k, one of those before the index, the set of the crossing nodes of the square.
pub fn put_crossings(
    nodes: &[u8],
    edges: &[u8],
    square: Square,
    n: usize,
    k: usize,
    work: &mut [u32],
)
    requires n_value { (n ≡ node_count nodes.now) × (n ≤ max_nodes) × Enough n work.old × (1 ≤ n) × (region_at n k + set_words n ≤ index_at n) }
    requires indexed_edges { IndexedEdges edges.now n work.old }
    ensures members { CrossingsOf nodes.now edges.now square n (region_flags n k work.new) }
    ensures others { Only n k work.old work.new }
{
    clear(work, n, k);
    for v in 0..n {
        if square.has(nodes, v) {
            put_crossings_at(nodes, edges, square, v, n, k, work);
        }
    }
}
