// The bodies of a network that keeps rules 1 and 2.
ghost use Rattle.std.specs.Prelude.{◌≡◌, false, ◌<◌};
ghost use Rattle.model.specs.Contents.{network_edition, network_entries, contents_broken, bodies_broken, body, node_body};
ghost use Rattle.model.specs.Network.{node_count};
ghost use Rattle.contents.specs.Reading.{HasBodies};

use codec::records::NODE_SIZE;
use contents::{Contents, NETWORK_ENTRIES, body_of, read};
use reader::oracle::NODES;

// The contents as one record, for building, which takes all bodies.
pub fn network_contents(f: &[u8]) -> Contents
    requires { (contents_broken network_edition network_entries f.now ≡ false) × (bodies_broken network_entries f.now ≡ false) }
    ensures { HasBodies network_entries f.now result }
{
    read(NETWORK_ENTRIES, f)
}

pub fn network_body(f: &[u8], k: usize) -> &[u8]
    requires { (contents_broken network_edition network_entries f.now ≡ false) × (bodies_broken network_entries f.now ≡ false) × (k < network_entries) }
    ensures { result.now ≡ body f.now k }
{
    body_of(NETWORK_ENTRIES, f, k)
}

// N, the number of nodes.
pub fn node_count(f: &[u8]) -> usize
    requires { (contents_broken network_edition network_entries f.now ≡ false) × (bodies_broken network_entries f.now ≡ false) }
    ensures { result ≡ node_count (node_body f.now) }
{
    network_body(f, NODES).len() / NODE_SIZE
}
