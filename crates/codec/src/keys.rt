// Keys: a pair of seconds and hops as one number, the hops in its low 16 bits, so that one comparison compares pairs and one sum adds them.
ghost use Rattle.std.specs.Prelude.{◌≡◌, ◌+◌, ◌*◌, ◌<◌, ◌≤◌, length};
ghost use Rattle.model.specs.Pair.{hop_base, key, seconds_of, hops_of};
ghost use Rattle.model.specs.Network.{edge, edge_size};
ghost use Rattle.model.specs.Oracle.{no_walk};

use crate::records::{Edge, HOP_BASE};

pub fn key_of(seconds: u32, hops: u32) -> u64
    ensures { result ≡ key seconds hops }
{
    HOP_BASE * seconds as u64 + hops as u64
}

pub fn seconds_of(k: u64) -> u32
    requires { k ≤ no_walk }
    ensures { result ≡ seconds_of k }
{
    (k / HOP_BASE) as u32
}

pub fn hops_of(k: u64) -> u32
    ensures { (result ≡ hops_of k) × (result < hop_base) }
{
    (k % HOP_BASE) as u32
}

// What edge i costs: its seconds, and one hop.
pub fn edge_key(b: &[u8], i: usize) -> u64
    requires { edge_size * i + edge_size ≤ length b.now }
    ensures { (result ≡ key (edge b.now i).seconds 1) × (result ≤ no_walk) }
{
    key_of(Edge::read(b, i).seconds, 1)
}
