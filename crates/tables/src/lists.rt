// The lists of the access body: where each stands, its entries, and the list as a part of the body.
ghost use Rattle.std.specs.Prelude.{◌≡◌, ◌<◌};
ghost use Rattle.model.specs.Bytes.{cut};
ghost use Rattle.model.specs.Oracle.{decoded, list_start, list_count, list_part, access_at, access_entry};
ghost use Rattle.tables.specs.Premises.{ListedBelow, HasEntry, InRange};

use codec::bytes::read16;
use codec::lists::list_size;
use codec::records::{COUNT_SIZE, LIST_ENTRY_SIZE, NUMBER_SIZE};
use codec::values::read_value;

pub fn list_start(access: &[u8], u: usize) -> usize
    requires { ListedBelow access.now u }
    ensures { result ≡ list_start access.now u }
{
    codec::lists::list_start(access, u)
}

// The number of entries of the list of node u.
pub fn list_count(access: &[u8], u: usize) -> usize
    requires { ListedBelow access.now u }
    ensures { (result ≡ list_count access.now u) × (result < 65536) }
{
    read16(access, list_start(access, u)) as usize
}

// Where entry i of the list of node u stands.
pub fn entry_at(access: &[u8], u: usize, i: usize) -> usize
    requires { HasEntry access.now u i }
    ensures { result ≡ access_at access.now u i }
{
    list_start(access, u) + COUNT_SIZE + LIST_ENTRY_SIZE * i
}

pub fn entry_index(access: &[u8], u: usize, i: usize) -> usize
    requires { HasEntry access.now u i }
    ensures { result ≡ (access_entry access.now u i).index }
{
    read16(access, entry_at(access, u, i)) as usize
}

pub fn entry_value(access: &[u8], u: usize, i: usize) -> u64
    requires { HasEntry access.now u i }
    ensures { (decoded result ≡ (access_entry access.now u i).distance) × InRange result }
{
    read_value(access, entry_at(access, u, i) + NUMBER_SIZE)
}

// The list of node u, "its count included".
pub fn list_part(access: &[u8], u: usize) -> &[u8]
    requires { ListedBelow access.now u }
    ensures { result.now ≡ cut (list_part access.now u) access.now }
{
    let start = list_start(access, u);
    let end = start + list_size(list_count(access, u));
    &access[start..end]
}
