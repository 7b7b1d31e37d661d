// Numbers with their ranges in their types: a value of one of these is always a good one.
#![tactic(auto)]

pub mod ids;
pub mod promises;
pub mod range;
