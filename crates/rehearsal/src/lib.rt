// What a script is to be answered, and whether it is.
#![tactic(auto)]

pub mod expectation;
mod parts;
pub mod room;
pub mod scene;
