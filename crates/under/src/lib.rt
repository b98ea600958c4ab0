// The time and the way under a day sheet: over an opened oracle, and as calls.
#![tactic(auto)]

pub mod answers;
pub mod calls;
pub mod questions;
mod refusals;
mod ways;
