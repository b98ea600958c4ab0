// Edges that cross a square of cells, and their crossing nodes.
ghost use Rattle.std.specs.Prelude.{◌≡◌, false, ◌+◌, ◌*◌, ◌<◌, ◌≤◌, length};
ghost use Rattle.model.specs.Network.{edge, edge_size, edge_count, node_count, some_edge_broken};
ghost use Rattle.model.specs.Access.{crossing_end};
ghost use Rattle.crossing.specs.Beside.{crosses_square};

use codec::records::Edge;
use grid::square::Square;

// The crossing node of edge i, wherever it crosses: the end with the smaller number.
#[tactic(auto, unfolding(model::specs::Access::crossing_end))]
pub fn crossing_end(edges: &[u8], i: usize) -> usize
    requires { edge_size * i + edge_size ≤ length edges.now }
    ensures { result ≡ crossing_end (edge edges.now i) }
{
    let edge = Edge::read(edges, i);
    edge.first.min(edge.second)
}

// Edge i has one end inside the square, and one outside.
pub fn crosses_edge(nodes: &[u8], edges: &[u8], square: Square, i: usize) -> bool
    requires { (some_edge_broken (node_count nodes.now) edges.now ≡ false) × (i < edge_count edges.now) }
    ensures { result ≡ crosses_square nodes.now square (edge edges.now i) }
{
    let edge = Edge::read(edges, i);
    square.has(nodes, edge.first) != square.has(nodes, edge.second)
}
