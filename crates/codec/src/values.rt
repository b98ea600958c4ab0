// A distance in bodies 6 and 7: 32-bit seconds, then 16-bit hops, as a key, of which NO_WALK means 'no walk'. `read_value` reads both bodies; building lays
// them out by emit `value_bytes`, in the bytes that `write_value` writes.
ghost use Rattle.std.specs.Prelude.{◌≡◌, ◌+◌, ◌≤◌, length};
ghost use Rattle.model.specs.Bytes.{splice};
ghost use Rattle.model.specs.Oracle.{value_size, no_walk, value_bytes, decoded, value};

use crate::bytes::{read16, read32, write16, write32};
use crate::keys::{hops_of, key_of};
use crate::records::{HOP_BASE, SECONDS_SIZE};

pub fn read_value(b: &[u8], at: usize) -> u64
    requires { at + value_size ≤ length b.now }
    ensures { (decoded result ≡ value b.now at) × (result ≤ no_walk) }
{
    key_of(read32(b, at), read16(b, at + SECONDS_SIZE))
}

// The low 32 bits of the seconds of x, and its hops.
pub fn write_value(b: &mut [u8], at: usize, x: u64)
    requires { at + value_size ≤ length b.old }
    ensures { b.new ≡ splice at (value_bytes (decoded x)) b.old }
{
    write32(b, at, (x / HOP_BASE % 4294967296) as u32);
    write16(b, at + SECONDS_SIZE, hops_of(x));
}
