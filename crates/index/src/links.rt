// Building the index by links: one pass over the edges puts the two entries of each in front of the chains of its ends.
ghost use Rattle.std.specs.Prelude.{◌≡◌, false, ◌+◌, ◌-◌, ◌*◌, ◌/◌, ◌<◌, ◌≤◌, length};
ghost use Rattle.model.specs.Network.{edge, edge_size, edge_count, some_edge_broken};
ghost use Rattle.index.specs.Index.{by_links, Chained};
ghost use Rattle.index.specs.Grown.{Growing, ListedAt, ListedEdge};

use codec::records::{EDGE_SIZE, Edge};
use words::halves::{half_of, put_half};

// Puts entry k in front of the chain of node x.
fn put_front(ix: &mut [u32], n: usize, k: usize, x: usize)
    requires x_lt_n { (x < n) × (n ≤ k) × (k / 2 < length ix.old) × (k < 65536) }
    requires growing { Growing n k (by_links n ix.old) }
    ensures { ListedAt n k (by_links n ix.old) (k + 1) (by_links n ix.new) x ((k - n) / 2) }
{
    let h = half_of(ix, x);
    put_half(ix, k, h);
    put_half(ix, x, k);
}

// Lists edge i at both of its ends. That of blocks has the same form: here the place of an entry follows from i, there it is where the words in use end, and
// the two read the words in their own ways, so that what both would share is longer than either.
fn list_edge(edges: &[u8], i: usize, ix: &mut [u32], n: usize)
    requires edge_size_in_bounds { (edge_size * i + edge_size ≤ length edges.now) × ((edge edges.now i).first < n) × ((edge edges.now i).second < n) }
    requires i_bound { (n + 2 * i + 2 ≤ 2 * length ix.old) × (2 * length ix.old ≤ 65536) }
    requires growing { Growing n (n + 2 * i) (by_links n ix.old) }
    ensures { ListedEdge edges.now i n (n + 2 * i) (by_links n ix.old) (n + 2 * i + 2) (by_links n ix.new) i }
{
    let edge = Edge::read(edges, i);
    let k = n + 2 * i;
    put_front(ix, n, k, edge.first);
    put_front(ix, n, k + 1, edge.second);
}

// Lists all edges.
pub fn link_all(edges: &[u8], ix: &mut [u32], n: usize)
    requires edges_value { some_edge_broken n edges.now ≡ false }
    requires edges_bound { (n + 2 * edge_count edges.now ≤ 2 * length ix.old) × (2 * length ix.old ≤ 65536) }
    ensures { Chained edges.now (edge_count edges.now) n 1 (2 * length ix.new) (by_links n ix.new) }
{
    ix.fill(0);
    for i in 0..edges.len() / EDGE_SIZE {
        list_edge(edges, i, ix, n);
    }
}
