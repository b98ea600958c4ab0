// The rules of a file in checking order: the first that is broken, as an `Err`. Each body is passed on as the part of the file that it is.
#![tactic(auto)]

pub mod bodies;
pub mod files;
pub mod oracle;
