// The lists of body 6: where each starts, and how long it is.
ghost use Rattle.std.specs.Prelude.{◌≡◌, ◌+◌, ◌*◌, ◌<◌, ◌≤◌, length};
ghost use Rattle.model.specs.Oracle.{start_size, list_size, list_start};

use crate::bytes::read32;
use crate::records::{COUNT_SIZE, LIST_ENTRY_SIZE, START_SIZE};

// Where the list of node u starts, as the access body b has it.
pub fn list_start(b: &[u8], u: usize) -> usize
    requires { start_size * u + start_size ≤ length b.now }
    ensures { result ≡ list_start b.now u }
{
    read32(b, START_SIZE * u) as usize
}

// The size of a list with this number of entries.
pub fn list_size(count: usize) -> usize
    requires { count < 4294967296 }
    ensures { result ≡ list_size count }
{
    COUNT_SIZE + LIST_ENTRY_SIZE * count
}
