// The queue of a search: the nodes that are reached and not settled, in a binary heap inside lent words.
#![tactic(auto)]

pub mod halves;
pub mod positions;
pub mod queue;
pub mod sift;
