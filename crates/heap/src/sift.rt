// The ways up and down the heap, level by level.
ghost use Rattle.std.specs.Prelude.{◌≡◌, ℕ, cond, ltb, ◌+◌, ◌<◌, ◌≤◌};
ghost use Rattle.heap.specs.Words.{Positioned, key};
ghost use Rattle.heap.specs.Order.{Ordered, OrderedUp, OrderedDown, Lesser};
ghost use Rattle.heap.specs.Levels.{max_levels, Up, Down, Rises, Sinks};
ghost use Rattle.heap.specs.Sifts.{Level, Sifted};

use crate::positions::{is_sooner, swap};

// The levels below the first: 4,096 positions have no more.
const LEVELS: usize = 12;

// A way through the heap, level by level: on which positions it goes, what holds of the keys as long as it may go on, and where it may stand after so many
// levels.
trait Way {
    ghost on: { ℕ → ℕ → Type 0 };

    ghost partly: { ℕ → ℕ → (ℕ → ℕ) → Type 0 };

    ghost stands: { ℕ → ℕ → ℕ → Type 0 };

    // One level on from i, if the order asks for it: where that leads.
    fn level(w: &mut [u32], n: usize, k: usize, i: usize) -> usize
        requires { Positioned n w.old × (k ≤ n) × ((level : ℕ) × stands k level i) × partly k i (key n w.old) }
        ensures { Level n k on partly i w.old w.new result };
}

// From position `from` to where its node belongs.
fn sift<W: Way>(w: &mut [u32], n: usize, k: usize, from: usize)
    requires begins { Positioned n w.old × (k ≤ n) × W.stands k 0 from × W.partly k from (key n w.old) }
    requires turns { (level i r : ℕ) → level < max_levels → W.stands k level i → W.on i r → r < k → W.stands k (level + 1) r }
    requires ends { (i : ℕ) (key : ℕ → ℕ) → W.stands k max_levels i → W.partly k i key → Ordered k key }
    ensures { Sifted n k W.on from w.old w.new }
{
    let mut i = from;
    for _level in 0..LEVELS {
        let r = W::level(w, n, k, i);
        if r == i {
            return;
        }
        i = r;
    }
}

struct Rise;

impl Way for Rise {
    ghost on = { Up };

    ghost partly = { OrderedUp };

    ghost stands = { Rises };

    fn level(w: &mut [u32], n: usize, k: usize, i: usize) -> usize {
        if i == 0 {
            return i;
        }
        let p = (i - 1) / 2;
        if !is_sooner(w, n, i, p) {
            return i;
        }
        swap(w, n, i, p);
        p
    }
}

// Up from position `from` to where its node belongs.
pub fn up(w: &mut [u32], n: usize, k: usize, from: usize)
    requires { Positioned n w.old × (k ≤ n) × (from < k) × OrderedUp k from (key n w.old) }
    ensures { Sifted n k Up from w.old w.new }
{
    sift::<Rise>(w, n, k, from);
}

// 1 where the key at i is less than that at j, and else 0.
fn less(w: &[u32], n: usize, i: usize, j: usize) -> usize
    requires { Positioned n w.now × (i < n) × (j < n) }
    ensures { (result ≡ cond (ltb (key n w.now i) (key n w.now j)) 1 0) × (result ≤ 1) }
{
    is_sooner(w, n, i, j) as usize
}

// The position of the lesser of the two below i; k or more where there is none. The comparison is added as a number: a processor would guess a branch on it
// wrong
// half of the time.
fn lesser(w: &[u32], n: usize, k: usize, i: usize) -> usize
    requires { Positioned n w.now × (k ≤ n) × (i ≤ k) }
    ensures some { result < k → Lesser k (key n w.now) i result }
    ensures none { k ≤ result → k ≤ i + i + 1 }
{
    let a = i + i + 1;
    let b = a + 1;
    if b < k {
        return a + less(w, n, b, a);
    }
    a
}

struct Sink;

impl Way for Sink {
    ghost on = { Down };

    ghost partly = { OrderedDown };

    ghost stands = { Sinks };

    fn level(w: &mut [u32], n: usize, k: usize, i: usize) -> usize {
        let c = lesser(w, n, k, i);
        if c >= k {
            return i;
        }
        if !is_sooner(w, n, c, i) {
            return i;
        }
        swap(w, n, i, c);
        c
    }
}

// Down from the first position to where its node belongs.
pub fn down(w: &mut [u32], n: usize, k: usize)
    requires { Positioned n w.old × (k ≤ n) × OrderedDown k 0 (key n w.old) }
    ensures { Sifted n k Down 0 w.old w.new }
{
    sift::<Sink>(w, n, k, 0);
}
