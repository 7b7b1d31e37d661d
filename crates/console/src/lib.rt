// What the programs share of the system: standard output as a sink, and input that is read to its end.
#![tactic(auto)]

pub mod input;
pub mod output;
