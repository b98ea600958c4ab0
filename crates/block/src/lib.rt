// The block of times between up to twelve starts and twelve ends, and the like one of hops.
#![tactic(auto)]

ghost use Rattle.std.specs.Prelude.{◌≡◌};

pub mod calls;
pub mod names;
pub mod near;
pub mod parts;
pub mod questions;
pub mod rows;

// What the block call hands back: the number of the broken rule and zeros, or 0 with a row for each start and a column for each end.
#[repr(C)]
#[derive(Clone, Copy)]
pub struct Block {
    pub rule: u32,
    pub times: [[u32; 12]; 12],
    pub hops: [[u32; 12]; 12],
}

pub fn block_record(rule: u32, times: [[u32; 12]; 12], hops: [[u32; 12]; 12]) -> Block
    ensures { (result.rule ≡ rule) × (result.times ≡ times) × (result.hops ≡ hops) }
{
    Block { rule, times, hops }
}

pub fn times_of(b: Block) -> [[u32; 12]; 12]
    ensures { result ≡ b.times }
{
    b.times
}
