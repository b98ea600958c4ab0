// Sets of nodes, one bit a node.
#![tactic(auto)]

pub mod bits;
pub mod counts;
