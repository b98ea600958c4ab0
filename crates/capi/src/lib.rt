// The C interface: the entry points in types that cross to other languages, none of which requires anything. `capi_c` exports each under its name.
#![tactic(auto)]

pub mod building;
pub mod converter;
pub mod oracles;
pub mod sheets;
