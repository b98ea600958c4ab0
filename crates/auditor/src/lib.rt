// The audit: whether an oracle is, byte by byte, the one that building gives.
#![tactic(auto)]

pub mod bodies;
pub mod calls;
pub mod lists;
pub mod rows;
pub mod transit;
