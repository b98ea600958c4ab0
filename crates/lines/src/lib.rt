// The listing of an oracle: its text in a lent buffer, and the program that writes it.
#![tactic(auto)]

pub mod lines;
pub mod program;
pub mod rows;
pub mod text;
