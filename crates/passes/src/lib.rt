// The passes over the cells that building and the audit share.
#![tactic(auto)]

pub mod own;
pub mod transit;
