// Which nodes have the same cell, and which is the first of its cell.
ghost use Rattle.std.specs.Prelude.{◌≡◌, ◌<◌};
ghost use Rattle.model.specs.Network.{node_count};
ghost use Rattle.grid.specs.Stored.{Over};
ghost use Rattle.crossing.specs.Ground.{cells_in};
ghost use Rattle.crossing.specs.Cells.{first_of_cell};
ghost use Rattle.crossing.specs.Beside.{CellSquare, Beside};

use grid::Grid;
use grid::square::Square;

// The square of the cell of u, by which each other node is compared with u.
pub fn cell_square(nodes: &[u8], grid: Grid, u: usize) -> Square
    requires { Over grid nodes.now × (u < node_count nodes.now) }
    ensures { CellSquare nodes.now grid u result }
{
    grid.square(grid.cell(nodes, u), 0)
}

// Node v has the cell that the square is of.
pub fn beside(nodes: &[u8], square: Square, v: usize) -> bool
    requires { v < node_count nodes.now }
    ensures { Beside nodes.now square v result }
{
    square.has(nodes, v)
}

// No node below u has its cell.
pub fn first_of_cell(nodes: &[u8], grid: Grid, u: usize) -> bool
    requires { Over grid nodes.now × (u < node_count nodes.now) }
    ensures { result ≡ first_of_cell (cells_in grid nodes.now) u }
{
    let square = cell_square(nodes, grid, u);
    for v in 0..u {
        if beside(nodes, square, v) {
            return false;
        }
    }
    true
}
