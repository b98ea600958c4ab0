// The least and the greatest coordinate of the nodes, in one direction.
ghost use Rattle.std.specs.Prelude.{◌≡◌, ◌+◌, ◌*◌, ◌≤◌, min, max, false, map, length};
ghost use Rattle.model.specs.Lists.{least, greatest};
ghost use Rattle.model.specs.Network.{node, nodes, node_size, nodes_broken};
ghost use Rattle.grid.specs.Stored.{along};

use codec::records::{NODE_SIZE, Node};

#[derive(Clone, Copy)]
pub struct Span {
    pub low: u32,
    pub high: u32,
}

// The direction of a coordinate.
#[derive(Clone, Copy, PartialEq, Eq)]
pub enum Axis {
    X,
    Y,
}

// The coordinate of node i in one direction.
fn coordinate(b: &[u8], i: usize, axis: Axis) -> u32
    requires { node_size * i + node_size ≤ length b.now }
    ensures { result ≡ along axis (node b.now i) }
{
    let node = Node::read(b, i);
    match axis {
        Axis::X => node.x,
        Axis::Y => node.y,
    }
}

impl Span {
    fn with(self, x: u32) -> Span
        ensures { (result.low ≡ min self.low x) × (result.high ≡ max self.high x) }
    {
        Span {
            low: self.low.min(x),
            high: self.high.max(x),
        }
    }

    pub fn over(b: &[u8], axis: Axis) -> Span
        requires { nodes_broken b.now ≡ false }
        ensures { (result.low ≡ least (map (along axis) (nodes b.now)))
            × (result.high ≡ greatest (map (along axis) (nodes b.now))) }
    {
        let first = coordinate(b, 0, axis);
        let mut s = Span {
            low: first,
            high: first,
        };
        for i in 1..b.len() / NODE_SIZE {
            s = s.with(coordinate(b, i, axis));
        }
        s
    }
}
