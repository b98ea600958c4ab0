// Walking the network by its index: cursors over the edges at a node, and over the arcs that leave it. What an edge is to a walk is known here alone.
#![tactic(auto)]

pub mod cursor;
pub mod leaving;
pub mod roads;
