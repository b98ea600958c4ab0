// The nodes on least walks from one node to wanted ones, with the wanted set among the working words: `marks`, over regions.
ghost use Rattle.std.specs.Prelude.{◌≡◌, ◌↔◌, ℕ, ◌+◌, ◌<◌, ◌≤◌, get_or};
ghost use Rattle.model.specs.Network.{max_nodes};
ghost use Rattle.algorithms.specs.Marks.{Toward};
ghost use Rattle.algorithms.specs.Pass.{Is};
ghost use Rattle.arcs.specs.Arcs.{arcs_in};
ghost use Rattle.index.specs.Index.{IndexedEdges};
ghost use Rattle.crossing.specs.Sets.{ones};
ghost use Rattle.marks.specs.Due.{Flagged, due, turned};
ghost use Rattle.words.specs.Regions.{region_flags, marks, want, times_in, order_in, search_words};
ghost use Rattle.marks.specs.Ordered.{Ordered};
ghost use Rattle.words.specs.Frames.{Only, Enough, KeptFrom};

use marks::leads::leads;
use search::wanted::search_wanted;
use words::regions::{MARKS, WANT, clear, has, put};

// Whether v is to be marked: it is wanted itself, or leads on.
fn is_due(edges: &[u8], n: usize, work: &[u32], v: usize) -> bool
    requires n_le_max_nodes { (n ≤ max_nodes) × (v < n) × Enough n work.now }
    requires indexed_edges { IndexedEdges edges.now n work.now }
    ensures { result ≡ due (arcs_in edges.now) (times_in n work.now) (region_flags n want work.now)
        (region_flags n marks work.now) v }
{
    if has(work, n, WANT, v) {
        return true;
    }
    leads(edges, n, work, v)
}

// Marks v, if it is due.
fn mark(edges: &[u8], n: usize, work: &mut [u32], v: usize)
    requires n_le_max_nodes { (n ≤ max_nodes) × (v < n) × Enough n work.old }
    requires indexed_edges { IndexedEdges edges.now n work.old }
    ensures members { region_flags n marks work.new ≡ turned (arcs_in edges.now) (times_in n work.old)
        (region_flags n want work.old) (region_flags n marks work.old) v }
    ensures others { Only n marks work.old work.new }
{
    if is_due(edges, n, work, v) {
        put(work, n, MARKS, v);
    }
}

// Marks the node at position i of the order, if it is due.
fn mark_at(edges: &[u8], n: usize, work: &mut [u32], i: usize)
    requires n_le_max_nodes { (n ≤ max_nodes) × (i < n) × Enough n work.old × (get_or work.old (n + i) 0 < n) }
    requires indexed_edges { IndexedEdges edges.now n work.old }
    ensures members { region_flags n marks work.new ≡ turned (arcs_in edges.now) (times_in n work.old)
        (region_flags n want work.old) (region_flags n marks work.old) (get_or work.old (n + i) 0) }
    ensures others { Only n marks work.old work.new }
{
    let v = work[n + i] as usize;
    mark(edges, n, work, v);
}

// After a search whose order begins at position e: marks each node of the order that is wanted, or from which a tight arc leads to a marked one.
pub fn mark_back(edges: &[u8], n: usize, e: usize, work: &mut [u32])
    requires n_le_max_nodes { (n ≤ max_nodes) × (e ≤ n) × Enough n work.old × Ordered n (times_in n work.old) (order_in n e work.old) × (2 ≤ n) }
    requires indexed_edges { IndexedEdges edges.now n work.old }
    ensures members { (v : ℕ) → Flagged (region_flags n marks work.new) v
        ↔ Is (arcs_in edges.now) (times_in n work.old) (Flagged (region_flags n want work.old))
        (order_in n e work.old) v }
    ensures others { Only n marks work.old work.new }
{
    clear(work, n, MARKS);
    for i in e..n {
        mark_at(edges, n, work, i);
    }
}

// Marks every node that lies on some least walk from p to a wanted node, of which there are at most `left`, every equally quick way counted, and no other.
pub fn toward(edges: &[u8], n: usize, p: usize, left: usize, work: &mut [u32])
    requires n_le_max_nodes { (n ≤ max_nodes) × (p < n) × Enough n work.old × (ones (region_flags n want work.old) ≤ left) × (2 ≤ n) }
    requires indexed_edges { IndexedEdges edges.now n work.old }
    ensures members { (v : ℕ) → Flagged (region_flags n marks work.new) v ↔ Toward (arcs_in edges.now) p
        (Flagged (region_flags n want work.old)) v }
    ensures others { KeptFrom (search_words n) work.old work.new }
{
    let e = search_wanted(edges, n, p, left, work);
    mark_back(edges, n, e, work);
}
