// Body 5: the members of a set as rising 16-bit numbers.
ghost use Rattle.std.specs.Prelude.{◌≡◌, ◌+◌, ◌*◌, ◌≤◌, length};
ghost use Rattle.model.specs.Lists.{equal};
ghost use Rattle.model.specs.Bytes.{number_size};
ghost use Rattle.model.specs.Network.{max_nodes};
ghost use Rattle.bitset.specs.Members.{members_of, HasBits};
ghost use Rattle.emit.specs.Parts.{numbers_bytes};
ghost use Rattle.emit.specs.Records.{Wrote};

use crate::bytes::number_bytes;
use crate::sink::{Checker, Sink, Writer};
use bitset::bits::contains;

// The members below n, to the sink.
fn numbers<S: Sink>(n: usize, set: &[u32], to: &mut S) -> bool
    requires { (n ≤ max_nodes) × HasBits n set.now × S.fits to.old (numbers_bytes (members_of n set.now)) }
    ensures { S.took to.old (numbers_bytes (members_of n set.now)) result to.new }
{
    for v in 0..n {
        if contains(set, v) && !to.take(&number_bytes(v as u32)) {
            return false;
        }
    }
    true
}

// Writes the members below n from `at` on, and answers where they end.
pub fn write_numbers(n: usize, set: &[u32], out: &mut [u8], at: usize) -> usize
    requires { (n ≤ max_nodes) × HasBits n set.now × (at + number_size * length (members_of n set.now) ≤ length out.old) }
    ensures { Wrote out.old at (numbers_bytes (members_of n set.now)) result out.new }
{
    let mut writer = Writer { out, at };
    numbers(n, set, &mut writer);
    writer.at
}

// Whether b, of any length, is those members.
pub fn same_numbers(n: usize, set: &[u32], b: &[u8]) -> bool
    requires { (n ≤ max_nodes) × HasBits n set.now }
    ensures { result ≡ equal b.now (numbers_bytes (members_of n set.now)) }
{
    let mut checker = Checker { stands: b, at: 0 };
    numbers(n, set, &mut checker) && checker.at == b.len()
}
