// What calls over an oracle check before they answer, and the working words that they zero afterwards.
#![tactic(auto)]

pub mod kinds;
pub mod names;
pub mod refusals;
pub mod room;
