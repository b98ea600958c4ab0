// The C interface's symbols: each exports the function of its name in `capi`, with the clauses that stand there. A slice crosses as a pointer and a length.
#![tactic(auto)]

pub mod building;
pub mod converter;
pub mod oracles;
pub mod sheets;
