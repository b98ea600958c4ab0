// The access nodes of a cell, inside the working words.
#![tactic(auto)]

pub mod cell;
pub mod crossings;
pub mod gather;
pub mod sets;
pub mod toward;
