// The records of bodies 5 to 7 as bytes, the low byte first.
ghost use Rattle.std.specs.Prelude.{◌≡◌, ◌++◌};
ghost use Rattle.model.specs.Bytes.{bytes16};
ghost use Rattle.model.specs.Oracle.{value_bytes, decoded};

use codec::keys::hops_of;
use codec::records::{HOP_BASE, LIST_ENTRY_SIZE, NUMBER_SIZE, VALUE_SIZE};

// The low 16 bits of x.
pub fn number_bytes(x: u32) -> [u8; NUMBER_SIZE]
    ensures { result ≡ bytes16 x }
{
    ((x % 65536) as u16).to_le_bytes()
}

// A distance: the low 32 bits of the seconds of x, and its hops.
pub fn value_bytes(x: u64) -> [u8; VALUE_SIZE]
    ensures { result ≡ value_bytes (decoded x) }
{
    let seconds = (x / HOP_BASE % 4294967296) as u32;
    let [a, b] = number_bytes(seconds);
    let [c, d] = number_bytes(seconds / 65536);
    let [e, f] = number_bytes(hops_of(x));
    [a, b, c, d, e, f]
}

// An entry of a list: the index of an access node, and the distance to it.
pub fn indexed_bytes(index: u32, x: u64) -> [u8; LIST_ENTRY_SIZE]
    ensures { result ≡ bytes16 index ++ value_bytes (decoded x) }
{
    let [a, b] = number_bytes(index);
    let [c, d, e, f, g, h] = value_bytes(x);
    [a, b, c, d, e, f, g, h]
}
