// Bodies 6 and 7 of an oracle, written by searches inside the working words.
#![tactic(auto)]

pub mod listing;
pub mod lists;
pub mod table;
