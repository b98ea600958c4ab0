// An oracle's lists and table, and the far answer from them.
#![tactic(auto)]

pub mod far;
pub mod lists;
pub mod sums;
