// Day sheets (document 02, T-03): their lines, rules 18 to 20, and the cost of an edge under one.
#![tactic(auto)]

pub mod form;
pub mod lines;
pub mod names;
pub mod refusal;
pub mod slow;
pub mod spans;
