// Sets of nodes in the regions of the working words, a word of 32 nodes at a time: those of one region or another, those of two, and how many there are.
ghost use Rattle.std.specs.Prelude.{◌≡◌, ℕ, ◌+◌, ◌<◌, ◌≤◌, length, get_or};
ghost use Rattle.bitset.specs.Bits.{set_words};
ghost use Rattle.crossing.specs.Sets.{either, both, ones};
ghost use Rattle.words.specs.Regions.{region_at, region_flags};
ghost use Rattle.words.specs.Frames.{Only};

use bitset::bits::set_words;
use words::regions::{region, region_at};

// Makes each word of region `into` what `word` gives of the words of regions a and b at its place.
fn combine<F: Fn(u32, u32) -> u32>(
    work: &mut [u32],
    n: usize,
    a: usize,
    b: usize,
    into: usize,
    word: F,
)
    requires n_in_bounds { (region_at n a + set_words n ≤ length work.old) × (region_at n b + set_words n ≤ length work.old)
        × (region_at n into + set_words n ≤ length work.old) }
    requires callable { F.IsAlwaysCallable word }
    ensures words { 0 < n → (i : ℕ) → i < set_words n
        → F.post word (get_or work.old (region_at n a + i) 0) (get_or work.old (region_at n b + i) 0) (get_or work.new (region_at n into + i) 0) }
    ensures others { Only n into work.old work.new }
{
    let x = region_at(n, a);
    let y = region_at(n, b);
    let z = region_at(n, into);
    for i in 0..set_words(n) {
        work[z + i] = word(work[x + i], work[y + i]);
    }
}

// Puts the members of region `from` into region `into`.
pub fn unite(work: &mut [u32], n: usize, from: usize, into: usize)
    requires { (region_at n from + set_words n ≤ length work.old) × (region_at n into + set_words n ≤ length work.old) × (from ≡ into → ⊥) }
    ensures members { region_flags n into work.new ≡ either (region_flags n from work.old) (region_flags n into work.old) }
    ensures others { Only n into work.old work.new }
{
    combine(work, n, from, into, into, |x, y| x | y);
}

// Makes region `into` the set of those that are in region a and in region b.
pub fn meet(work: &mut [u32], n: usize, a: usize, b: usize, into: usize)
    requires n_in_bounds { (region_at n a + set_words n ≤ length work.old) × (region_at n b + set_words n ≤ length work.old)
        × (region_at n into + set_words n ≤ length work.old) }
    requires fact { (a ≡ into → ⊥) × (b ≡ into → ⊥) }
    ensures members { region_flags n into work.new ≡ both (region_flags n a work.old) (region_flags n b work.old) }
    ensures others { Only n into work.old work.new }
{
    combine(work, n, a, b, into, |x, y| x & y);
}

// How many nodes region k has.
pub fn count(work: &[u32], n: usize, k: usize) -> usize
    requires { region_at n k + set_words n ≤ length work.now }
    ensures { result ≡ ones (region_flags n k work.now) }
{
    bitset::counts::count(n, region(work, n, k))
}
