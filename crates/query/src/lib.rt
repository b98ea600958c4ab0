// The questions over an oracle: the calls, which check it, and the questions over an opened one.
#![tactic(auto)]

pub mod calls;
pub mod questions;
