// Building: the oracle of a network under a division, or why there is none.
#![tactic(auto)]

pub mod calls;
mod network;
mod parts;
mod sizes;
mod whole;
