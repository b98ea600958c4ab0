// Body 6: the list of a node, with the index of each access node among the transit nodes, and the time to it.
ghost use Rattle.std.specs.Prelude.{◌≡◌, ◌≤◌, length};
ghost use Rattle.model.specs.Lists.{equal};
ghost use Rattle.model.specs.Network.{max_nodes};
ghost use Rattle.model.specs.Oracle.{list_size};
ghost use Rattle.bitset.specs.Members.{members_of, HasBits};
ghost use Rattle.words.specs.Regions.{times_in};
ghost use Rattle.words.specs.Times.{time_words};
ghost use Rattle.emit.specs.Members.{Among};
ghost use Rattle.emit.specs.Parts.{list_bytes_of};

use crate::bytes::{indexed_bytes, number_bytes};
use crate::sink::{Checker, Sink, Writer};
use bitset::bits::contains;
use bitset::counts::{count, flag_of};
use words::times::time_of;

// The list of the node whose n times the words begin with, and which has these access nodes, each of them a transit node, to the sink.
fn list<S: Sink>(n: usize, access: &[u32], transit: &[u32], work: &[u32], to: &mut S) -> bool
    requires n_le_max_nodes { (n ≤ max_nodes) × HasBits n access.now × HasBits n transit.now × (time_words n ≤ length work.now) }
    requires among { Among n access.now transit.now }
    requires fits { S.fits to.old (list_bytes_of (times_in n work.now) (members_of n transit.now) (members_of n access.now)) }
    ensures { S.took to.old (list_bytes_of (times_in n work.now) (members_of n transit.now) (members_of n access.now)) result to.new }
{
    if !to.take(&number_bytes(count(n, access) as u32)) {
        return false;
    }
    // The number of transit nodes below v: the index of v where v is one.
    let mut rank = 0;
    for v in 0..n {
        if contains(access, v) && !to.take(&indexed_bytes(rank, time_of(work, n, v))) {
            return false;
        }
        rank += flag_of(transit, v);
    }
    true
}

// Writes that list.
pub fn write_list(n: usize, access: &[u32], transit: &[u32], work: &[u32], out: &mut [u8])
    requires n_le_max_nodes { (n ≤ max_nodes) × HasBits n access.now × HasBits n transit.now × (time_words n ≤ length work.now) }
    requires among { Among n access.now transit.now × (length out.old ≡ list_size (length (members_of n access.now))) }
    ensures { out.new ≡ list_bytes_of (times_in n work.now) (members_of n transit.now) (members_of n access.now) }
{
    let mut writer = Writer { out, at: 0 };
    list(n, access, transit, work, &mut writer);
}

// Whether b, of any length, is that list.
pub fn same_list(n: usize, access: &[u32], transit: &[u32], work: &[u32], b: &[u8]) -> bool
    requires { (n ≤ max_nodes) × HasBits n access.now × HasBits n transit.now × (time_words n ≤ length work.now) × Among n access.now transit.now }
    ensures { result ≡ equal b.now (list_bytes_of (times_in n work.now) (members_of n transit.now)
        (members_of n access.now)) }
{
    let mut checker = Checker { stands: b, at: 0 };
    list(n, access, transit, work, &mut checker) && checker.at == b.len()
}
