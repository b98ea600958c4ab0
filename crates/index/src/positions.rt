// Where the words of the index stand, and how they are read.
ghost use Rattle.std.specs.Prelude.{◌≡◌, ◌*◌, ◌<◌, ◌≤◌, length};
ghost use Rattle.model.specs.Network.{max_nodes, edge_count};
ghost use Rattle.words.specs.Frames.{Enough};
ghost use Rattle.words.specs.Halves.{half};
ghost use Rattle.words.specs.Regions.{place_at, index_in};
ghost use Rattle.index.specs.Index.{next, block, linked};
ghost use Rattle.index.specs.Read.{ReadAt};

use codec::records::EDGE_SIZE;
use words::halves::half_of;
use words::regions::index_fits;

// Whether the index is read by links. Here and below, `at` is where it begins: a walk asks for it once.
pub fn is_linked(edges: &[u8], n: usize, at: usize) -> bool
    requires { (at ≡ place_at n) × (1 ≤ n) × (n ≤ max_nodes) }
    ensures { result ≡ linked n (edge_count edges.now) }
{
    index_fits(n, at, n + 2 * (edges.len() / EDGE_SIZE))
}

// ---- by links

// The link of position p.
pub fn link_in(work: &[u32], n: usize, at: usize, p: usize) -> usize
    requires { (at ≡ place_at n) × (n ≤ max_nodes) × Enough n work.now × (p < 2 * length (index_in n work.now)) }
    ensures { (result ≡ half (index_in n work.now) p) × (result < 65536) }
{
    half_of(work, 2 * at + p)
}

// ---- by blocks

// The link of the word at p.
pub fn next_of(ix: &[u32], p: usize) -> usize
    requires { p < length ix.now }
    ensures { (result ≡ next ix.now p) × (result < 65536) }
{
    (ix[p] % 65536) as usize
}

// The size in the word of a node, or the block of an entry.
pub fn block_of(ix: &[u32], p: usize) -> usize
    requires { p < length ix.now }
    ensures { (result ≡ block ix.now p) × (result < 65536) }
{
    (ix[p] / 65536) as usize
}

// The two numbers of a word: the size of the blocks or the number of one, and the next link.
#[derive(Clone, Copy)]
pub struct Entry {
    pub block: usize,
    pub next: usize,
}

// Both of the word at p.
pub fn entry_in(work: &[u32], n: usize, at: usize, p: usize) -> Entry
    requires { (at ≡ place_at n) × (n ≤ max_nodes) × Enough n work.now × (p < length (index_in n work.now)) }
    ensures { ReadAt (index_in n work.now) p result }
{
    let i = at + p;
    Entry {
        block: block_of(work, i),
        next: next_of(work, i),
    }
}

// Both of the word of node u: the size of the blocks, and where its chain begins. For one node there is no index.
pub fn head_in(work: &[u32], n: usize, at: usize, u: usize) -> Entry
    requires { (at ≡ place_at n) × (n ≤ max_nodes) × Enough n work.now × (u < n) }
    ensures { ReadAt (index_in n work.now) u result }
{
    if n < 2 {
        return Entry { block: 0, next: 0 };
    }
    entry_in(work, n, at, u)
}
