// The working words: what stands where, a node's time, sets of nodes, and numbers of 16 bits.
#![tactic(auto)]

pub mod halves;
pub mod regions;
pub mod times;
