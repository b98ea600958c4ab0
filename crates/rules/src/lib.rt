// Rules 3 to 11, each over the body that it is about.
#![tactic(auto)]

pub mod access;
pub mod edges;
pub mod grid;
pub mod nodes;
pub mod numbers;
pub mod refusal;
pub mod table;
