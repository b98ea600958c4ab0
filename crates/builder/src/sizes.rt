// The sizes of the bodies, and of the whole oracle, from the numbers of transit nodes and of access nodes.
ghost use Rattle.std.specs.Prelude.{◌≡◌, ◌+◌, ◌*◌, ◌<◌, ◌≤◌};
ghost use Rattle.model.specs.Lists.{total};
ghost use Rattle.words.specs.Regions.{counts_in};
ghost use Rattle.model.specs.Contents.{network_head};
ghost use Rattle.model.specs.Network.{max_nodes};
ghost use Rattle.model.specs.Oracle.{start_size, list_size};
ghost use Rattle.emit.specs.Parts.{Counted, list_sizes};
ghost use Rattle.words.specs.Frames.{Enough};
ghost use Rattle.builder.specs.Plan.{sizes_in, whole_size};

use codec::lists::list_size;
use codec::records::{GRID_SIZE, NUMBER_SIZE, START_SIZE, VALUE_SIZE};
use contents::{NETWORK_HEAD, ORACLE_ENTRIES, ORACLE_HEAD};
use words::halves::half_of;
use words::regions::counts;

// The size of n lists with these numbers of entries, two to a word.
fn lists_size(counts: &[u32], n: usize) -> usize
    requires { Counted n counts.now }
    ensures { (result ≡ total (list_sizes n counts.now)) × (result ≤ list_size max_nodes * n) }
{
    let mut sum = 0;
    for v in 0..n {
        sum += list_size(half_of(counts, v));
    }
    sum
}

// The size of body 6, its starts included.
pub fn access_size(n: usize, work: &[u32]) -> usize
    requires { Enough n work.now × Counted n (counts_in n work.now) × (1 ≤ n) }
    ensures { result ≡ start_size * n + total (list_sizes n (counts_in n work.now)) }
{
    START_SIZE * n + lists_size(counts(work, n), n)
}

// The size of the oracle of a network of `size` bytes, with t transit nodes and this size of body 6.
pub fn whole_size(size: usize, t: usize, access: usize) -> usize
    requires { (network_head ≤ size) × (whole_size size t access < 4294967296) }
    ensures { result ≡ whole_size size t access }
{
    let front = ORACLE_HEAD + (size - NETWORK_HEAD) + GRID_SIZE;
    front + NUMBER_SIZE * t + access + VALUE_SIZE * t * t
}

// The sizes of the bodies, as they stand in the head. Body 3 is empty.
pub fn head_sizes(nodes: usize, edges: usize, t: usize, access: usize) -> [u32; ORACLE_ENTRIES]
    requires { total (sizes_in nodes edges t access) < 4294967296 }
    ensures { result ≡ sizes_in nodes edges t access }
{
    [
        nodes as u32,
        edges as u32,
        0,
        GRID_SIZE as u32,
        (NUMBER_SIZE * t) as u32,
        access as u32,
        (VALUE_SIZE * t * t) as u32,
    ]
}
