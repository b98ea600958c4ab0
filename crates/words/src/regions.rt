// The regions of the working words: two of a word a node each, 16 bits a node for hops, sets of nodes of one bit a node, and 16 bits a node for counts. The
// last words are an index's, and every function over the regions keeps them.
ghost use Rattle.std.specs.Prelude.{◌≡◌, ◌+◌, ◌*◌, ◌<◌, ◌≤◌, leb, length, set, take, drop, replicate};
ghost use Rattle.model.specs.Network.{max_nodes};
ghost use Rattle.bitset.specs.Bits.{set_words, is_in};
ghost use Rattle.bitset.specs.Members.{HasBits};
ghost use Rattle.words.specs.Halves.{half_words};
ghost use Rattle.words.specs.Regions.{queue_words, search_words, region_at, region, region_flags, counts, counts_in, put_count};
ghost use Rattle.words.specs.Regions.{grid_at, place_at, index_words, spans_at, span_count};
ghost use Rattle.words.specs.Frames.{Enough, Only};

use crate::halves::put_half;
use bitset::bits::{contains, insert_at, set_words};

// Working words for each node.
pub const WORDS: usize = 8;

// The seconds and the settle order of a search, and the marks made after it, which stand over its settled set.
pub const TIMES: usize = 0;

pub const ORDER: usize = 1;

pub const MARKS: usize = 2;

// The nodes that least walks are wanted to.
pub const WANT: usize = 3;

// The nodes that they begin at, and afterwards the access nodes of the cell.
pub const OWN: usize = 4;

// The nodes on least walks from one of OWN to one of WANT.
pub const GATHERED: usize = 5;

// The transit nodes.
pub const TRANSIT: usize = 6;

// A number of 16 bits for each node.
pub const COUNTS: usize = 7;

// The numbers of an opened oracle's grid.
pub const GRID_WORDS: usize = 4;

// The words that are left free before the index, beyond a word a node with the counts.
const SPARE: usize = 3;

// The words of a search's queue with the times. One node alone is never searched, and has no hops.
pub fn queue_words(n: usize) -> usize
    requires { queue_words n < 18446744073709551616 }
    ensures { result ≡ queue_words n }
{
    if n < 2 {
        return 2 * n;
    }
    2 * n + (n + 1) / 2
}

// Where region k begins.
pub fn region_at(n: usize, k: usize) -> usize
    requires { region_at n k < 18446744073709551616 }
    ensures { result ≡ region_at n k }
{
    if k < MARKS {
        return k * n;
    }
    queue_words(n) + (k - MARKS) * set_words(n)
}

// The words that a search is lent: those of its queue, and the settled set.
pub fn search_words(n: usize) -> usize
    requires { n ≤ max_nodes }
    ensures { result ≡ search_words n }
{
    queue_words(n) + set_words(n)
}

// The words of a number of 16 bits for each node.
fn half_words(n: usize) -> usize
    requires { n ≤ max_nodes }
    ensures { result ≡ half_words n }
{
    (n + 1) / 2
}

// Where the numbers of an opened oracle's grid stand: behind the wanted set of a search.
pub fn grid_at(n: usize) -> usize
    requires { n ≤ max_nodes }
    ensures { result ≡ grid_at n }
{
    search_words(n) + set_words(n)
}

// Where the index begins, from two nodes on.
pub fn index_at(n: usize) -> usize
    requires { n ≤ max_nodes }
    ensures { result ≡ place_at n }
{
    3 * n + 5 * set_words(n) + SPARE
}

// Whether k numbers of 16 bits fit into it, where it begins at `at`. Without a difference, so that one node needs no test of its own.
pub fn index_fits(n: usize, at: usize, k: usize) -> bool
    requires { (at ≡ place_at n) × (n ≤ max_nodes) × (0 < k) × (k < 9223372036854775808) }
    ensures { result ≡ leb k (2 * index_words n) }
{
    k + 2 * at <= 2 * (WORDS * n)
}

// Where the spans of a day sheet's lines begin, and how many there are.
pub fn spans_at(n: usize) -> usize
    requires { n ≤ max_nodes }
    ensures { result ≡ spans_at n }
{
    grid_at(n) + GRID_WORDS
}

pub fn span_count(n: usize) -> usize
    requires { (2 ≤ n) × (n ≤ max_nodes) }
    ensures { (result ≡ span_count n) × (0 < result) }
{
    index_at(n) - spans_at(n)
}

// The m words from word a on.
fn part(work: &[u32], a: usize, m: usize) -> &[u32]
    requires { a + m ≤ length work.now }
    ensures { result.now ≡ take m (drop a work.now) }
{
    let e = a + m;
    &work[a..e]
}

// The words of the set in region k.
pub fn region(work: &[u32], n: usize, k: usize) -> &[u32]
    requires { region_at n k + set_words n ≤ length work.now }
    ensures { (result.now ≡ region n k work.now) × HasBits n result.now }
{
    part(work, region_at(n, k), set_words(n))
}

// The words of region COUNTS.
pub fn counts(work: &[u32], n: usize) -> &[u32]
    requires { (n ≤ max_nodes) × (region_at n counts + half_words n ≤ length work.now) }
    ensures { result.now ≡ counts_in n work.now }
{
    part(work, region_at(n, COUNTS), half_words(n))
}

// Makes k the count of v.
pub fn put_count(work: &mut [u32], n: usize, v: usize, k: usize)
    requires { (n ≤ max_nodes) × (v < n) × (k < 65536) × Enough n work.old }
    ensures { work.new ≡ put_count n work.old v k }
{
    put_half(work, 2 * region_at(n, COUNTS) + v, k);
}

// Whether v is in region k.
pub fn has(work: &[u32], n: usize, k: usize, v: usize) -> bool
    requires { (v < n) × (region_at n k + set_words n ≤ length work.now) }
    ensures { result ≡ is_in (drop (region_at n k) work.now) v }
{
    contains(region(work, n, k), v)
}

// Puts v into region k.
pub fn put(work: &mut [u32], n: usize, k: usize, v: usize)
    requires { (v < n) × (region_at n k + set_words n ≤ length work.old) }
    ensures members { region_flags n k work.new ≡ set (region_flags n k work.old) v 1 }
    ensures others { Only n k work.old work.new }
{
    insert_at(work, region_at(n, k), v);
}

// Region k has no node.
pub fn clear(work: &mut [u32], n: usize, k: usize)
    requires { region_at n k + set_words n ≤ length work.old }
    ensures members { region_flags n k work.new ≡ replicate n 0 }
    ensures others { Only n k work.old work.new }
{
    let a = region_at(n, k);
    let e = a + set_words(n);
    work[a..e].fill(0);
}
