// What crossing nodes and access nodes are worked out by.
ghost use Rattle.std.specs.Prelude.{◌≡◌, ◌≤◌};
ghost use Rattle.model.specs.Network.{max_nodes, node_count};
ghost use Rattle.crossing.specs.Ground.{Ground};

use grid::Grid;

// The nodes and the edges of an accepted network, the number of its nodes, and a grid over them.
#[derive(Clone, Copy)]
pub struct Ground<'a> {
    pub nodes: &'a [u8],
    pub edges: &'a [u8],
    pub grid: Grid,
    pub n: usize,
    pub ghost keeps: { Ground nodes.now edges.now grid × (n ≡ node_count nodes.now) × (n ≤ max_nodes) },
}
