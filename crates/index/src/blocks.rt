// Building the index by blocks: one pass over the edges puts each edge's block in front of the chains of its two ends.
ghost use Rattle.std.specs.Prelude.{◌≡◌, true, false, ℕ, ◌+◌, ◌*◌, ◌<◌, ◌≤◌, length, get_or, set};
ghost use Rattle.model.specs.Network.{edge, edge_size, edge_count, some_edge_broken};
ghost use Rattle.index.specs.Index.{block, by_blocks, linked, Chained, IndexOf};
ghost use Rattle.index.specs.Grown.{Growing, ListedAt, ListedEdge};

use crate::positions::{block_of, next_of};
use codec::records::{EDGE_SIZE, Edge};

// The smallest block, and how many sizes there are, each twice the one before it.
const MIN_SIZE: usize = 2;

const SIZES: usize = 14;

// How many edges are listed at most.
const MAX_LISTED: usize = 65536;

fn put_link(ix: &mut [u32], p: usize, q: usize, e: usize)
    requires { (p < length ix.old) × (q < 65536) × (e < 65536) }
    ensures { ix.new ≡ set ix.old p (q * 65536 + e) }
{
    ix[p] = (q * 65536 + e) as u32;
}

// Whether q is the block of the entry at h.
fn has_last(ix: &[u32], n: usize, h: usize, q: usize) -> bool
    requires { n ≤ h → h < length ix.now }
    ensures { result ≡ true → (n ≤ h) × (block ix.now h ≡ q) }
{
    h >= n && block_of(ix, h) == q
}

// Lists block q at the node x, where it is not the last that was listed there. The new end of the words in use.
fn list_at(ix: &mut [u32], n: usize, k: usize, x: usize, q: usize) -> usize
    requires x_lt_n { (x < n) × (n ≤ k) × (k < length ix.old) × (length ix.old ≤ 65536) × (q < 65536) }
    requires growing { Growing n k (by_blocks ix.old) }
    ensures { ListedAt n k (by_blocks ix.old) result (by_blocks ix.new) x q }
{
    let h = next_of(ix, x);
    if has_last(ix, n, h, q) {
        return k;
    }
    let s = block_of(ix, x);
    put_link(ix, k, q, h);
    put_link(ix, x, s, k);
    k + 1
}

// Lists edge i, of block q, at both of its ends.
fn list_edge(edges: &[u8], i: usize, q: usize, ix: &mut [u32], n: usize, k: usize) -> usize
    requires edge_size_in_bounds { (edge_size * i + edge_size ≤ length edges.now) × ((edge edges.now i).first < n) × ((edge edges.now i).second < n) }
    requires n_le_k { (n ≤ k) × (k + 2 ≤ length ix.old) × (length ix.old ≤ 65536) × (q < 65536) }
    requires growing { Growing n k (by_blocks ix.old) }
    ensures { ListedEdge edges.now i n k (by_blocks ix.old) result (by_blocks ix.new) q }
{
    let edge = Edge::read(edges, i);
    let j = list_at(ix, n, k, edge.first, q);
    list_at(ix, n, j, edge.second, q)
}

// Lists all edges in blocks of s; false where the words do not suffice.
fn list_all(edges: &[u8], s: usize, ix: &mut [u32], n: usize) -> bool
    requires edges_value { some_edge_broken n edges.now ≡ false }
    requires edges_bound { (edge_count edges.now ≤ 65536) × (0 < s) × (n ≤ length ix.old) × (length ix.old ≤ 65536) }
    requires chained { Chained edges.now 0 n s n (by_blocks ix.old) }
    ensures { result ≡ true → Chained edges.now (edge_count edges.now) n s (length ix.new)
        (by_blocks ix.new) }
{
    let mut k = n;
    for i in 0..edges.len() / EDGE_SIZE {
        if ix.len() - k < 2 {
            return false;
        }
        k = list_edge(edges, i, i / s, ix, n, k);
    }
    true
}

// No chain has an entry, and the blocks have s edges.
fn clear(ix: &mut [u32], n: usize, s: usize)
    requires { (n ≤ length ix.old) × (s ≤ 16384) }
    ensures { ((x : ℕ) → x < n → get_or ix.new x 0 ≡ s * 65536) × ((x : ℕ) → n ≤ x → get_or ix.new x 0 ≡ 0) }
{
    ix.fill(0);
    ix[..n].fill((s * 65536) as u32);
}

// The index in blocks of s; false where the words do not suffice.
fn build_by(edges: &[u8], s: usize, ix: &mut [u32], n: usize) -> bool
    requires edges_value { some_edge_broken n edges.now ≡ false }
    requires edges_bound { (edge_count edges.now ≤ 65536) × (1 < s) × (s ≤ 16384) × (n ≤ length ix.old) × (length ix.old ≤ 65536) }
    requires edges_value_2 { linked n (edge_count edges.now) ≡ false }
    ensures { result ≡ true → IndexOf edges.now n ix.new }
{
    clear(ix, n, s);
    list_all(edges, s, ix, n)
}

// The index in the smallest blocks of 2, 4, 8, .. edges that fit; false where none do.
fn build_any(edges: &[u8], ix: &mut [u32], n: usize) -> bool
    requires edges_value { some_edge_broken n edges.now ≡ false }
    requires n_in_bounds { (n ≤ length ix.old) × (length ix.old ≤ 65536) × (linked n (edge_count edges.now) ≡ false) }
    ensures { result ≡ true → IndexOf edges.now n ix.new }
{
    if MAX_LISTED < edges.len() / EDGE_SIZE {
        return false;
    }
    for doublings in 0..SIZES {
        if build_by(edges, MIN_SIZE << doublings, ix, n) {
            return true;
        }
    }
    false
}

// The index by blocks; one without chains where none fit.
pub fn build_blocks(edges: &[u8], ix: &mut [u32], n: usize)
    requires edges_value { some_edge_broken n edges.now ≡ false }
    requires n_in_bounds { (n ≤ length ix.old) × (length ix.old ≤ 65536) × (linked n (edge_count edges.now) ≡ false) }
    ensures { IndexOf edges.now n ix.new }
{
    if build_any(edges, ix, n) {
        return;
    }
    clear(ix, n, 0);
}
