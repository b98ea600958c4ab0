// The grid over the nodes: the cell of each node, the squares about a cell, and which cells are far.
#![tactic(auto)]

ghost use Rattle.std.specs.Prelude.{◌≡◌, ◌+◌, ◌-◌, ◌<◌, ◌≤◌, false, not};
ghost use Rattle.model.specs.Network.{node, nodes, node_count, nodes_broken};
ghost use Rattle.model.specs.Grid.{grid_over, cell_index, cell_of, within, kind_of};
ghost use Rattle.grid.specs.Stored.{grid_of, model_cell, Over, InSpan};
ghost use Rattle.grid.specs.Squares.{Bounded, SquareOf, start_of};

use crate::span::{Axis, Span};
use crate::square::Square;
use codec::records::Node;
use model::{Division, Kind};

mod span;
pub mod square;

// g × g cells from the least x and the least y on, which the larger of the two spreads is divided into.
#[derive(Clone, Copy)]
pub struct Grid {
    pub g: u32,
    pub left: u32,
    pub bottom: u32,
    pub spread: u32,
}

#[derive(Clone, Copy)]
pub struct Cell {
    pub column: u32,
    pub row: u32,
}

impl Grid {
    // The radii of the squares of 5 × 5 and of 9 × 9 cells about a cell.
    pub const INNER: u32 = 2;

    pub const OUTER: u32 = 4;

    pub fn over(b: &[u8], dv: Division) -> Grid
        requires { nodes_broken b.now ≡ false }
        ensures { grid_of result ≡ grid_over dv (nodes b.now) }
    {
        let across = Span::over(b, Axis::X);
        let up = Span::over(b, Axis::Y);
        let left = across.low;
        let bottom = up.low;
        let spread = (across.high - left).max(up.high - bottom);
        Grid {
            g: dv.g,
            left,
            bottom,
            spread,
        }
    }

    // The column or the row of a coordinate, in the direction that begins at `from`.
    fn index(self, from: u32, x: u32) -> u32
        requires { InSpan self from x }
        ensures { (result ≡ cell_index (grid_of self) from x) × (result < self.g) }
    {
        (x - from) * self.g / (self.spread + 1)
    }

    pub fn column(self, x: u32) -> u32
        requires { InSpan self self.left x }
        ensures { (result ≡ cell_index (grid_of self) (grid_of self).left x) × (result < self.g) }
    {
        self.index(self.left, x)
    }

    pub fn row(self, y: u32) -> u32
        requires { InSpan self self.bottom y }
        ensures { (result ≡ cell_index (grid_of self) (grid_of self).bottom y) × (result < self.g) }
    {
        self.index(self.bottom, y)
    }

    pub fn cell(self, b: &[u8], i: usize) -> Cell
        requires { Over self b.now × (i < node_count b.now) }
        ensures { model_cell result ≡ cell_of (grid_of self) (node b.now i) }
    {
        let node = Node::read(b, i);
        Cell {
            column: self.column(node.x),
            row: self.row(node.y),
        }
    }

    // How far from its origin the cells with index k begin.
    fn start(self, k: u64) -> u32
        requires { Bounded self }
        ensures { (result ≡ start_of self k) × (result ≤ self.spread + 1) }
    {
        let k = k.min(u64::from(self.g)) as u32;
        (k * (self.spread + 1) + (self.g - 1)) / self.g
    }

    // From where on, and up to where, the cells lie whose index differs from k by r at most.
    fn reach(self, k: u32, r: u32) -> Span
        requires { Bounded self }
        ensures { (result.low ≡ start_of self (k - r)) × (result.high ≡ start_of self (k + r + 1)) × (result.low ≤ result.high) × (result.high ≤ self.spread + 1) }
    {
        Span {
            low: self.start(u64::from(k.saturating_sub(r))),
            high: self.start(u64::from(k) + u64::from(r) + 1),
        }
    }

    // The square of radius r about the cell c.
    pub fn square(self, c: Cell, r: u32) -> Square
        requires { Bounded self }
        ensures { SquareOf self (model_cell c) r result }
    {
        let across = self.reach(c.column, r);
        let up = self.reach(c.row, r);
        Square {
            left: self.left + across.low,
            width: across.high - across.low,
            bottom: self.bottom + up.low,
            height: up.high - up.low,
        }
    }

    // The squares about the cell c that document 01 names inner and outer. Two functions, since each contract ties one constant above to the definitions'
    // radius.
    pub fn inner_square(self, c: Cell) -> Square
        requires { Bounded self }
        ensures { SquareOf self (model_cell c) (grid_of self).inner result }
    {
        self.square(c, Grid::INNER)
    }

    pub fn outer_square(self, c: Cell) -> Square
        requires { Bounded self }
        ensures { SquareOf self (model_cell c) (grid_of self).outer result }
    {
        self.square(c, Grid::OUTER)
    }

    // The cell e is in the square of radius r about the cell c.
    fn within(r: u32, c: Cell, e: Cell) -> bool
        ensures { result ≡ within r (model_cell c) (model_cell e) }
    {
        e.column.abs_diff(c.column) <= r && e.row.abs_diff(c.row) <= r
    }

    // The cells c and e are far.
    pub fn is_far(self, c: Cell, e: Cell) -> bool
        ensures { result ≡ not (within (grid_of self).outer (model_cell c) (model_cell e)) }
    {
        !Grid::within(Grid::OUTER, c, e)
    }

    pub fn kind(self, c: Cell, e: Cell) -> Kind
        ensures { result ≡ kind_of (grid_of self) (model_cell c) (model_cell e) }
    {
        if self.is_far(c, e) {
            Kind::Far
        } else {
            Kind::Local
        }
    }
}
