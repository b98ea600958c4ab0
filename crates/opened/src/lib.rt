// An oracle that is opened once for many questions: its grid and the index of its edges in the working words, and the answers from them.
#![tactic(auto)]

pub mod answers;
pub mod local;
pub mod opening;
pub mod ways;
