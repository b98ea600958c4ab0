// Rule 11, and the range of a value, which rule 10 asks for too.
ghost use Rattle.std.specs.Prelude.{◌≡◌, true, false, ◌+◌, ◌*◌, ◌<◌, ◌≤◌, length, MatchOption};
ghost use Rattle.model.specs.Network.{max_nodes};
ghost use Rattle.model.specs.Oracle.{value_size, value_broken, cell_broken, table_broken};
ghost use Rattle.rules.specs.Values.{excess, NoneBroken};

use codec::bytes::{read16, read32};
use codec::records::{MAX_HOPS, MAX_VALUE, NO_WALK, SECONDS_SIZE, VALUE_SIZE};
use codec::values::read_value;

// The value at i has too many seconds or too many hops for a time.
fn exceeds(b: &[u8], i: usize) -> bool
    requires { i + value_size ≤ length b.now }
    ensures { result ≡ excess b.now i }
{
    let seconds = read32(b, i) as u64;
    let hops = read16(b, i + SECONDS_SIZE) as u64;
    (MAX_VALUE < seconds) | (MAX_HOPS < hops)
}

// The value at i is out of range: too much for a time, and not 'no walk'.
pub fn value_broken(b: &[u8], i: usize) -> bool
    requires { i + value_size ≤ length b.now }
    ensures { result ≡ value_broken b.now i }
{
    exceeds(b, i) && read_value(b, i) != NO_WALK
}

// One of the four values from number i on is too much for a time.
fn four_exceed(b: &[u8], i: usize) -> bool
    requires { value_size * (i + 4) ≤ length b.now }
    ensures { result ≡ false → NoneBroken b.now i 4 }
{
    let at = VALUE_SIZE * i;
    let front = exceeds(b, at) | exceeds(b, at + VALUE_SIZE);
    let back = exceeds(b, at + 2 * VALUE_SIZE) | exceeds(b, at + 3 * VALUE_SIZE);
    front | back
}

// How many of the n values are in range from number i on, as far as is looked at here: four or one; None where value i is not. Nearly all values of a
// table are times, and four at a time take half as long as one by one.
fn fine_from(b: &[u8], n: usize, i: usize) -> Option<usize>
    requires { (i < n) × (length b.now ≡ value_size * n) }
    ensures { MatchOption result (cell_broken b.now i ≡ true) (λ fine. (0 < fine) × (i + fine ≤ n) × NoneBroken b.now i fine) }
{
    if 4 <= n - i && !four_exceed(b, i) {
        return Some(4);
    }
    if value_broken(b, VALUE_SIZE * i) {
        None
    } else {
        Some(1)
    }
}

// A table not of 6 × T × T bytes, or a value out of range.
pub fn table_broken(transit: usize, b: &[u8]) -> bool
    requires { transit ≤ max_nodes }
    ensures { result ≡ table_broken transit b.now }
{
    let values = transit * transit;
    if b.len() != VALUE_SIZE * values {
        return true;
    }
    let mut i = 0;
    // The step is four values or one, which no range or chain has.
    while i < values {
        let Some(fine) = fine_from(b, values, i) else {
            return true;
        };
        i += fine;
    }
    false
}
