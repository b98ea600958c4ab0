// A node's time is read and written here alone: a key, in words that begin with the times of n nodes.
ghost use Rattle.std.specs.Prelude.{◌≡◌, true, ◌<◌, ◌≤◌, ltb, length, get_or};
ghost use Rattle.model.specs.Oracle.{no_walk};
ghost use Rattle.words.specs.Regions.{times_in};
ghost use Rattle.words.specs.Times.{time_words, time, store};

use crate::halves::{half_of, put_half};
use codec::keys::{hops_of, key_of, seconds_of};
use codec::records::HOP_BASE;

pub fn time_of(work: &[u32], n: usize, v: usize) -> u64
    requires { (time_words n ≤ length work.now) × (v < n) }
    ensures { (result ≡ time n work.now v) × (result ≡ get_or (times_in n work.now) v 0) × (result ≤ no_walk) }
{
    key_of(work[v], half_of(work, 2 * (2 * n) + v) as u32)
}

// Whether the time of u is less than that of v. Hops are read only where the seconds are the same, which is seldom.
pub fn is_less(work: &[u32], n: usize, u: usize, v: usize) -> bool
    requires { (time_words n ≤ length work.now) × (u < n) × (v < n) }
    ensures { result ≡ ltb (time n work.now u) (time n work.now v) }
{
    let a = work[u];
    let b = work[v];
    if a != b {
        return a < b;
    }
    half_of(work, 2 * (2 * n) + u) < half_of(work, 2 * (2 * n) + v)
}

// Whether x is less than the time of v.
pub fn lowers(work: &[u32], n: usize, v: usize, x: u64) -> bool
    requires { (time_words n ≤ length work.now) × (v < n) }
    ensures less { result ≡ ltb x (time n work.now v) }
    ensures small { result ≡ true → x < no_walk }
{
    let a = x / HOP_BASE;
    let b = work[v] as u64;
    if a != b {
        return a < b;
    }
    x % HOP_BASE < half_of(work, 2 * (2 * n) + v) as u64
}

pub fn store_time(work: &mut [u32], n: usize, v: usize, x: u64)
    requires { (time_words n ≤ length work.old) × (v < n) × (x ≤ no_walk) }
    ensures { work.new ≡ store n v x work.old }
{
    work[v] = seconds_of(x);
    put_half(work, 2 * (2 * n) + v, hops_of(x) as usize);
}
