// Rules 3 and 4, over the nodes body.
ghost use Rattle.std.specs.Prelude.{◌≡◌, ◌+◌, ◌*◌, ◌≤◌, length};
ghost use Rattle.model.specs.Network.{node, node_size, nodes_broken, node_broken, coordinates_broken};

use codec::records::{MAX_METRES, NODE_SIZE, Node};

const MIN_NODES: usize = 1;

const MAX_NODES: usize = 4096;

// A coordinate is read with 1,000,000 added, so that the range of 1,000,000 metres to either side is 0 to this.
const MAX_COORDINATE: u32 = MAX_METRES + MAX_METRES;

// Rule 3: a part of a node, no node or too many.
pub fn nodes_broken(b: &[u8]) -> bool
    ensures { result ≡ nodes_broken b.now }
{
    let n = b.len() / NODE_SIZE;
    b.len() % NODE_SIZE != 0 || n < MIN_NODES || MAX_NODES < n
}

fn node_broken(b: &[u8], i: usize) -> bool
    requires { node_size * i + node_size ≤ length b.now }
    ensures { result ≡ node_broken (node b.now i) }
{
    let node = Node::read(b, i);
    MAX_COORDINATE < node.x || MAX_COORDINATE < node.y
}

// Rule 4: a coordinate out of range.
pub fn coordinates_broken(b: &[u8]) -> bool
    ensures { result ≡ coordinates_broken b.now }
{
    (0..b.len() / NODE_SIZE).any(|i| node_broken(b, i))
}
