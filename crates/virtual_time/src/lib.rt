// Virtual time: how far each fair task has come, in wholes and parts of its weight.
#![tactic(auto)]

pub mod laws;
pub mod position;
