// Writing the parts of an oracle, and comparing them.
#![tactic(auto)]

pub mod bytes;
pub mod compare;
pub mod copy;
pub mod head;
pub mod lists;
pub mod numbers;
pub mod rows;
pub mod sink;
pub mod starts;
