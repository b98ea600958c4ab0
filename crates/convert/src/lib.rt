// The converter (document 02, T-06): networks whose closed edges are left out, and day sheets renumbered for them.
#![tactic(auto)]

pub mod calls;
mod network;
mod numbers;
mod refusals;
mod sheets;
