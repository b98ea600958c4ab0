// The words of the queue: the times of the nodes, and words of two halves, the low one the node at a position and the high one the position of a node.
ghost use Rattle.std.specs.Prelude.{◌≡◌, ◌+◌, ◌<◌, ltb, length};
ghost use Rattle.heap.specs.Words.{Positioned, half, key, node, position, put_node, put_position, swapped};

use words::times::is_less;

// What a half counts up to.
pub const HALF: u32 = 65536;

// The node at position i.
pub fn node_at(w: &[u32], n: usize, i: usize) -> usize
    requires { Positioned n w.now × (i < n) }
    ensures { (result ≡ node n w.now i) × (result < n) }
{
    (w[n + i] % HALF) as usize
}

// The position of node v.
pub fn position_of(w: &[u32], n: usize, v: usize) -> usize
    requires { Positioned n w.now × (v < n) }
    ensures { (result ≡ position n w.now v) × (result < n) }
{
    (w[n + v] / HALF) as usize
}

// Whether the time of the node at position i is less than that of the node at position j.
pub fn is_sooner(w: &[u32], n: usize, i: usize, j: usize) -> bool
    requires { Positioned n w.now × (i < n) × (j < n) }
    ensures { result ≡ ltb (key n w.now i) (key n w.now j) }
{
    let u = node_at(w, n, i);
    let v = node_at(w, n, j);
    is_less(w, n, u, v)
}

// Writes node v at position i.
fn put_node(w: &mut [u32], n: usize, i: usize, v: usize)
    requires { (n + i < length w.old) × (v < half) }
    ensures { w.new ≡ put_node n i v w.old }
{
    w[n + i] = w[n + i] / HALF * HALF + v as u32;
}

// Writes i as the position of node v.
fn put_position(w: &mut [u32], n: usize, v: usize, i: usize)
    requires { (n + v < length w.old) × (i < half) }
    ensures { w.new ≡ put_position n v i w.old }
{
    w[n + v] = i as u32 * HALF + w[n + v] % HALF;
}

// The positions i and j change their nodes.
pub fn swap(w: &mut [u32], n: usize, i: usize, j: usize)
    requires { Positioned n w.old × (i < n) × (j < n) }
    ensures { w.new ≡ swapped n i j w.old }
{
    let a = node_at(w, n, i);
    let b = node_at(w, n, j);
    put_node(w, n, i, b);
    put_node(w, n, j, a);
    put_position(w, n, a, j);
    put_position(w, n, b, i);
}
