// A square of cells, as the coordinates that it reaches over.
ghost use Rattle.std.specs.Prelude.{◌≡◌, ◌+◌, ◌*◌, ◌≤◌, length};
ghost use Rattle.model.specs.Network.{node, node_size};
ghost use Rattle.grid.specs.Squares.{reaches, reaches_node};

use codec::records::Node;

// The coordinates from `left` on, `width` of them, and from `bottom` on, `height` of them.
#[derive(Clone, Copy)]
pub struct Square {
    pub left: u32,
    pub width: u32,
    pub bottom: u32,
    pub height: u32,
}

// The coordinate x is one of the `size` coordinates from `low` on: one comparison, for a smaller x wraps to a number beyond every size.
fn inside(low: u32, size: u32, x: u32) -> bool
    ensures { result ≡ reaches low size x }
{
    std::num::wrapping_sub_u32(x, low) < size
}

impl Square {
    // Node v lies in the square.
    pub fn has(self, nodes: &[u8], v: usize) -> bool
        requires { node_size * v + node_size ≤ length nodes.now }
        ensures { result ≡ reaches_node self (node nodes.now v) }
    {
        let node = Node::read(nodes, v);
        let across = inside(self.left, self.width, node.x);
        let up = inside(self.bottom, self.height, node.y);
        across & up
    }
}
