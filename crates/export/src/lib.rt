// What `export_c` gives to Rust and C: a script to its transcript, and steps to a log. Nothing is asked of the caller, nothing is allocated.
#![tactic(auto)]

pub mod accounted;
pub mod exports;
mod room;
pub mod transcript;
pub mod wire;
