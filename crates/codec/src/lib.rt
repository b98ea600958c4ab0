// Numbers and records in bytes, the low byte first, and pairs of seconds and hops as keys.
#![tactic(auto)]

pub mod bytes;
pub mod keys;
pub mod lists;
pub mod records;
pub mod values;
