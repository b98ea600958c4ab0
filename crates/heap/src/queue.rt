// Entering, lowering and taking out.
ghost use Rattle.std.specs.Prelude.{◌+◌, ◌<◌, ◌≤◌};
ghost use Rattle.model.specs.Oracle.{no_walk};
ghost use Rattle.words.specs.Regions.{times_in};
ghost use Rattle.words.specs.Times.{time};
ghost use Rattle.heap.specs.Words.{position};
ghost use Rattle.heap.specs.Queue.{Queue, Went, Entered, Lowered, Taken, lowered};

use crate::positions::{node_at, position_of, swap};
use crate::sift::{down, up};
use words::times::store_time;

// The node v, which is not reached yet, enters with the time x: it comes behind the nodes held, and rises past at most 12 levels.
fn enter(w: &mut [u32], n: usize, k: usize, e: usize, v: usize, x: u64)
    requires { Queue n k e w.old × (v < n) × (k ≤ position n w.old v) × (position n w.old v < e) × (x < no_walk) }
    ensures { Entered n k e v x w.old w.new }
{
    store_time(w, n, v, x);
    let p = position_of(w, n, v);
    swap(w, n, k, p);
    up(w, n, k + 1, k);
}

// The node v, which is held, is lowered to the time x: it rises past at most 12 levels.
fn lower(w: &mut [u32], n: usize, k: usize, e: usize, v: usize, x: u64)
    requires { Queue n k e w.old × (v < n) × (position n w.old v < k) × (x < time n w.old v) }
    ensures { Lowered n k e v x w.old w.new }
{
    store_time(w, n, v, x);
    let p = position_of(w, n, v);
    up(w, n, k, p);
}

// The node v, which is not settled, can be reached in the time x, which is less than it has. The number of nodes held.
pub fn offer(w: &mut [u32], n: usize, k: usize, e: usize, v: usize, x: u64) -> usize
    requires { Queue n k e w.old × (v < n) × (position n w.old v < e) × (x < time n w.old v) × (x < no_walk) }
    ensures { Went n e (lowered (times_in n w.old) v x) w.old w.new result }
{
    if position_of(w, n, v) < k {
        lower(w, n, k, e, v, x);
        return k;
    }
    enter(w, n, k, e, v, x);
    k + 1
}

// A nearest of the nodes held is taken out, and stands in front of the settled ones, at position e - 1. The last of the heap takes its place, and sinks past at
// most 12 levels.
pub fn take_nearest(w: &mut [u32], n: usize, k: usize, e: usize) -> usize
    requires { Queue n k e w.old × (0 < k) }
    ensures { Taken n k e w.old w.new result }
{
    let u = node_at(w, n, 0);
    swap(w, n, 0, k - 1);
    swap(w, n, k - 1, e - 1);
    down(w, n, k - 1);
    u
}
