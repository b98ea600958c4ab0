// The wages sheet: the time of each leg, the number of legs without a walk, and the total of the others.
#![tactic(auto)]

pub mod calls;
pub mod legs;
pub mod questions;
pub mod times;

// The legs marked 'no walk' so far, and the total of the others.
#[derive(Clone, Copy)]
pub struct Tally {
    pub marked: u32,
    pub total: u64,
}
