// The index of the edges at each node, in the lent words: how it is built, and what its words mean.
#![tactic(auto)]

mod blocks;
pub mod chains;
mod links;
pub mod positions;
