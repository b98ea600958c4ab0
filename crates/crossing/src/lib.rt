// The crossing nodes of a square, and the nodes of a cell.
#![tactic(auto)]

pub mod cells;
pub mod ground;
pub mod square;
