// Whether an arc leads on from a node, tight, to a marked one.
ghost use Rattle.std.specs.Prelude.{◌≡◌, ◌<◌, ◌≤◌};
ghost use Rattle.model.specs.Lists.{any};
ghost use Rattle.model.specs.Network.{max_nodes};
ghost use Rattle.arcs.specs.Arcs.{arcs_in};
ghost use Rattle.index.specs.Index.{IndexedEdges};
ghost use Rattle.words.specs.Frames.{Enough};
ghost use Rattle.marks.specs.Due.{leading};
ghost use Rattle.words.specs.Regions.{times_in, marks_in};
ghost use Rattle.theory.specs.Sound.{max_cost};

use arcs::cursor::first_edge;
use arcs::leaving::{arc_at, next_arc};
use bitset::bits::contains;
use words::regions::queue_words;
use words::times::time_of;

// Whether an arc from v leads on, by the times in the working words and the bits of the marks behind the queue's.
fn leads_to(n: usize, work: &[u32], v: usize, to: usize, cost: u64) -> bool
    requires { (n ≤ max_nodes) × Enough n work.now × (v < n) × (to < n) × (cost ≤ max_cost) }
    ensures { result ≡ leading (times_in n work.now) (marks_in n work.now) v (record { from = v; to = to; cost = cost }) }
{
    let m = queue_words(n);
    contains(&work[m..], to) && time_of(work, n, to) == time_of(work, n, v) + cost
}

// Whether some arc leads on from v.
pub fn leads(edges: &[u8], n: usize, work: &[u32], v: usize) -> bool
    requires n_le_max_nodes { (n ≤ max_nodes) × Enough n work.now × (v < n) }
    requires indexed_edges { IndexedEdges edges.now n work.now }
    ensures { result ≡ any (leading (times_in n work.now) (marks_in n work.now) v) (arcs_in edges.now) }
{
    let c = first_edge(edges, n, work, v);
    let mut a = arc_at(edges, n, v, c);
    while a.to < n {
        if leads_to(n, work, v, a.to, a.cost) {
            return true;
        }
        a = next_arc(edges, n, work, v, a);
    }
    false
}
