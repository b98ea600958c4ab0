// Body 7: a row of the table, the times to the members of a set.
ghost use Rattle.std.specs.Prelude.{◌≡◌, ◌*◌, ◌≤◌, length};
ghost use Rattle.model.specs.Lists.{equal};
ghost use Rattle.model.specs.Oracle.{value_size};
ghost use Rattle.bitset.specs.Members.{members_of, HasBits};
ghost use Rattle.words.specs.Regions.{times_in};
ghost use Rattle.words.specs.Times.{time_words};
ghost use Rattle.emit.specs.Parts.{row_bytes};

use crate::bytes::value_bytes;
use crate::sink::{Checker, Sink, Writer};
use bitset::bits::contains;
use words::times::time_of;

// The row of the node whose n times the words begin with, the columns being the members below n, to the sink. `numbers` walks the same members: one walk
// for both would take a closure that gives a record as bytes, and a bound `Fn` may not name the length of the record.
fn row<S: Sink>(n: usize, set: &[u32], work: &[u32], to: &mut S) -> bool
    requires { HasBits n set.now × (time_words n ≤ length work.now) × S.fits to.old (row_bytes (times_in n work.now) (members_of n set.now)) }
    ensures { S.took to.old (row_bytes (times_in n work.now) (members_of n set.now)) result to.new }
{
    for v in 0..n {
        if contains(set, v) && !to.take(&value_bytes(time_of(work, n, v))) {
            return false;
        }
    }
    true
}

// Writes that row.
pub fn write_row(n: usize, set: &[u32], work: &[u32], out: &mut [u8])
    requires { HasBits n set.now × (time_words n ≤ length work.now) × (length out.old ≡ value_size * length (members_of n set.now)) }
    ensures { out.new ≡ row_bytes (times_in n work.now) (members_of n set.now) }
{
    let mut writer = Writer { out, at: 0 };
    row(n, set, work, &mut writer);
}

// Whether b, of any length, is that row.
pub fn same_row(n: usize, set: &[u32], work: &[u32], b: &[u8]) -> bool
    requires { HasBits n set.now × (time_words n ≤ length work.now) }
    ensures { result ≡ equal b.now (row_bytes (times_in n work.now) (members_of n set.now)) }
{
    let mut checker = Checker { stands: b, at: 0 };
    row(n, set, work, &mut checker) && checker.at == b.len()
}
