// The records of the bodies: nodes, edges, and lists of 16-bit numbers.
ghost use Rattle.std.specs.Prelude.{◌≡◌, ◌+◌, ◌*◌, ◌<◌, ◌≤◌, length};
ghost use Rattle.model.specs.Bytes.{word16, number_size};
ghost use Rattle.model.specs.Network.{coordinate, node, node_size, edge, edge_size};

use crate::bytes::{read16, read32};

// A node: "x and y", each a number of 32 bits.
const COORDINATE_SIZE: usize = 4;

pub const NODE_SIZE: usize = COORDINATE_SIZE + COORDINATE_SIZE;

// An edge: "two 16-bit ends and 32-bit seconds".
const END_SIZE: usize = 2;

pub const SECONDS_SIZE: usize = 4;

const SECONDS_AT: usize = END_SIZE + END_SIZE;

pub const EDGE_SIZE: usize = SECONDS_AT + SECONDS_SIZE;

// A number of a list of them: an edge in body 3, a node in body 5.
pub const NUMBER_SIZE: usize = 2;

// Body 4, which is g.
pub const GRID_SIZE: usize = 2;

// A distance in the lists and in the table: "32-bit seconds" and "16 bits for the roads after the seconds". What marks 'no walk', and the most of the others.
pub const HOPS_SIZE: usize = 2;

pub const VALUE_SIZE: usize = SECONDS_SIZE + HOPS_SIZE;

pub const NO_SECONDS: u32 = 4294967295;

pub const NO_HOPS: u32 = 65535;

pub const HOP_BASE: u64 = 65536;

pub const NO_WALK: u64 = HOP_BASE * NO_SECONDS as u64 + NO_HOPS as u64;

pub const MAX_VALUE: u64 = 409500000;

pub const MAX_HOPS: u64 = 4095;

// Where a list starts, its count, and an entry of it: an index into body 5 and a distance.
pub const START_SIZE: usize = 4;

pub const COUNT_SIZE: usize = 2;

pub const LIST_ENTRY_SIZE: usize = NUMBER_SIZE + VALUE_SIZE;

// The farthest a node may lie from the origin, to either side.
pub const MAX_METRES: u32 = 1000000;

// A coordinate as it stands in the file, with 1,000,000 added.
fn shifted(raw: u32) -> u32
    ensures { result ≡ coordinate raw }
{
    std::num::wrapping_add_u32(raw, MAX_METRES)
}

#[derive(Clone, Copy)]
pub struct Node {
    pub x: u32,
    pub y: u32,
}

impl Node {
    // Node i of a nodes body.
    pub fn read(b: &[u8], i: usize) -> Node
        requires { node_size * i + node_size ≤ length b.now }
        ensures x { result.x ≡ (node b.now i).x }
        ensures y { result.y ≡ (node b.now i).y }
    {
        let at = NODE_SIZE * i;
        Node {
            x: shifted(read32(b, at)),
            y: shifted(read32(b, at + COORDINATE_SIZE)),
        }
    }
}

#[derive(Clone, Copy)]
pub struct Edge {
    pub first: usize,
    pub second: usize,
    pub seconds: u32,
}

impl Edge {
    // Edge i of an edges body.
    pub fn read(b: &[u8], i: usize) -> Edge
        requires { edge_size * i + edge_size ≤ length b.now }
        ensures first { (result.first ≡ (edge b.now i).first) × (result.first < 65536) }
        ensures second { (result.second ≡ (edge b.now i).second) × (result.second < 65536) }
        ensures seconds { result.seconds ≡ (edge b.now i).seconds }
    {
        let at = EDGE_SIZE * i;
        Edge {
            first: read16(b, at) as usize,
            second: read16(b, at + END_SIZE) as usize,
            seconds: read32(b, at + SECONDS_AT),
        }
    }
}

// Number i of a list of 16-bit numbers.
pub fn number(b: &[u8], i: usize) -> usize
    requires { number_size * i + number_size ≤ length b.now }
    ensures { (result ≡ word16 b.now (number_size * i)) × (result < 65536) }
{
    read16(b, NUMBER_SIZE * i) as usize
}
