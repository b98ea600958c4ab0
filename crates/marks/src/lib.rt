// Which nodes lead on to a marked node over a tight arc.
#![tactic(auto)]

pub mod leads;
