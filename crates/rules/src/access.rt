// Rule 10: the layout of the access lists, their indexes and their values.
ghost use Rattle.std.specs.Prelude.{◌≡◌, true, ◌&&◌, ◌||◌, map, ◌+◌, ◌*◌, ◌≤◌, length, eqb, leb, ltb};
ghost use Rattle.model.specs.Lists.{any, gapless, up_to};
ghost use Rattle.model.specs.Bytes.{word16, number_size};
ghost use Rattle.model.specs.Network.{max_nodes};
ghost use Rattle.model.specs.Oracle.{start_size, count_size, entry_size, list_size, list_start, list_part, value_broken, list_broken, access_broken};

use crate::table::value_broken;
use codec::bytes::read16;
use codec::lists::{list_size, list_start};
use codec::records::{COUNT_SIZE, LIST_ENTRY_SIZE, NUMBER_SIZE, START_SIZE};

// The size of the list at `at`.
fn size_at(b: &[u8], at: usize) -> usize
    requires { at + count_size ≤ length b.now }
    ensures { result ≡ list_size (word16 b.now at) }
{
    list_size(read16(b, at) as usize)
}

// The list of node u starts at `at` and ends inside the body.
fn list_fits(b: &[u8], u: usize, at: usize) -> bool
    requires { (start_size * u + start_size ≤ length b.now) × (at ≤ length b.now) }
    ensures { result ≡ eqb (list_start b.now u) at && leb (at + (list_part b.now u).size) (length b.now) }
{
    if list_start(b, u) != at {
        return false;
    }
    if b.len() - at < COUNT_SIZE {
        return false;
    }
    size_at(b, at) <= b.len() - at
}

// The lists stand in node order without gaps, from behind the starts to the body's end.
fn lists_gapless(n: usize, b: &[u8]) -> bool
    requires { n ≤ max_nodes }
    ensures { result ≡ gapless (start_size * n) (map (list_part b.now) (up_to n)) (length b.now) }
{
    let mut at = START_SIZE * n;
    if b.len() < at {
        return false;
    }
    for u in 0..n {
        if !list_fits(b, u, at) {
            return false;
        }
        at += size_at(b, at);
    }
    at == b.len()
}

// The entry at `at` has an index below `least` or not below T, or a value out of range.
fn entry_broken(transit: usize, least: usize, b: &[u8], at: usize) -> bool
    requires { at + entry_size ≤ length b.now }
    ensures { result ≡ ltb (word16 b.now at) least || (leb transit (word16 b.now at) || value_broken b.now (at + number_size)) }
{
    let index = read16(b, at) as usize;
    if index < least {
        return true;
    }
    if transit <= index {
        return true;
    }
    value_broken(b, at + NUMBER_SIZE)
}

// The list of node u, which stands inside the body, has indexes that do not rise, or a broken entry.
fn list_broken(transit: usize, b: &[u8], u: usize) -> bool
    requires { (start_size * u + start_size ≤ length b.now) × (list_start b.now u + (list_part b.now u).size ≤ length b.now) }
    ensures { result ≡ list_broken transit b.now u }
{
    let start = list_start(b, u);
    let count = read16(b, start) as usize;
    let mut least = 0;
    for i in 0..count {
        let at = start + COUNT_SIZE + LIST_ENTRY_SIZE * i;
        if entry_broken(transit, least, b, at) {
            return true;
        }
        least = read16(b, at) as usize + 1;
    }
    false
}

fn some_list_broken(n: usize, transit: usize, b: &[u8]) -> bool
    requires { (n ≤ max_nodes) × (gapless (start_size * n) (map (list_part b.now) (up_to n)) (length b.now) ≡ true) }
    ensures { result ≡ any (list_broken transit b.now) (up_to n) }
{
    (0..n).any(|u| list_broken(transit, b, u))
}

// "An access body that breaks its layout, an index not below T, or a value out of range."
pub fn access_broken(n: usize, transit: usize, b: &[u8]) -> bool
    requires { n ≤ max_nodes }
    ensures { result ≡ access_broken n transit b.now }
{
    if !lists_gapless(n, b) {
        return true;
    }
    some_list_broken(n, transit, b)
}
