// How many members a set has.
ghost use Rattle.std.specs.Prelude.{◌≡◌, ◌/◌, ◌<◌, ◌≤◌, length};
ghost use Rattle.bitset.specs.Bits.{word_bits, flag};
ghost use Rattle.bitset.specs.Members.{members_of, HasBits};

use crate::bits::contains;

// 1 where the set has v, and else 0.
pub fn flag_of(set: &[u32], v: usize) -> u32
    requires { v / word_bits < length set.now }
    ensures { (result ≡ flag set.now v) × (result ≤ 1) }
{
    u32::from(contains(set, v))
}

// The number of members below n.
pub fn count(n: usize, set: &[u32]) -> usize
    requires { HasBits n set.now }
    ensures { (result ≡ length (members_of n set.now)) × (result ≤ n) }
{
    let mut members = 0;
    for v in 0..n {
        members += flag_of(set, v) as usize;
    }
    members
}
