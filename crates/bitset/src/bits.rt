// A set of nodes, one bit a node, in 32-bit words: the settled set of a search ("places already settled take one bit each"), and the sets of building.
ghost use Rattle.std.specs.Prelude.{◌≡◌, ◌||◌, ℕ, ◌+◌, ◌*◌, ◌/◌, ◌<◌, eqb, length};
ghost use Rattle.bitset.specs.Bits.{word_bits, set_words, is_in, insert_in};

const WORD_BITS: usize = 32;

// The words that a set of the numbers below n is given.
pub fn set_words(n: usize) -> usize
    ensures { result ≡ set_words n }
{
    n / WORD_BITS + 1
}

pub fn contains(s: &[u32], v: usize) -> bool
    requires { v / word_bits < length s.now }
    ensures { result ≡ is_in s.now v }
{
    (s[v / WORD_BITS] >> (v % WORD_BITS)) & 1 == 1
}

// The set that begins at word a then has v, and of the others those that it had.
pub fn insert_at(s: &mut [u32], a: usize, v: usize)
    requires { a + v / word_bits < length s.old }
    ensures { s.new ≡ insert_in s.old (word_bits * a + v) }
{
    let i = a + v / WORD_BITS;
    s[i] = s[i] | (1u32 << (v % WORD_BITS));
}

pub fn insert(s: &mut [u32], v: usize)
    requires { v / word_bits < length s.old }
    ensures words { s.new ≡ insert_in s.old v }
    ensures members { (w : ℕ) → is_in s.new w ≡ (eqb w v || is_in s.old w) }
{
    insert_at(s, 0, v);
}
