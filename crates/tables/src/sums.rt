// The sums of the far answer.
ghost use Rattle.std.specs.Prelude.{◌≡◌, ◌+◌, ◌≤◌, length};
ghost use Rattle.model.specs.Oracle.{value_size, value_key};

use codec::bytes::{read16, read32};
use codec::records::{HOP_BASE, SECONDS_SIZE};

// The sum of the values at i in a row and at j in the lists, for each pair that is tried: seconds are added to seconds before they become a key.
pub fn sum(row: &[u8], i: usize, access: &[u8], j: usize) -> u64
    requires { (i + value_size ≤ length row.now) × (j + value_size ≤ length access.now) }
    ensures { result ≡ value_key row.now i + value_key access.now j }
{
    let seconds = read32(row, i) as u64 + read32(access, j) as u64;
    let hops = read16(row, i + SECONDS_SIZE) + read16(access, j + SECONDS_SIZE);
    HOP_BASE * seconds + hops as u64
}
