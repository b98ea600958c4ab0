// The words of two halves, all of them: when a search begins, and when it ends.
ghost use Rattle.std.specs.Prelude.{◌≡◌, map, ◌≤◌, length};
ghost use Rattle.model.specs.Lists.{up_to};
ghost use Rattle.heap.specs.Words.{half, low, own};

use crate::positions::HALF;

// Each node at the position of its own number.
pub fn number(s: &mut [u32])
    requires { length s.old ≤ half }
    ensures { s.new ≡ map own (up_to (length s.old)) }
{
    for (i, x) in s.iter_mut().enumerate() {
        *x = i as u32 * HALF + i as u32;
    }
}

// The positions go, and the nodes stay.
pub fn strip(s: &mut [u32])
    ensures { s.new ≡ map low s.old }
{
    for x in s.iter_mut() {
        *x %= HALF;
    }
}
