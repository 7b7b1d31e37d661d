// Runs kept in memory: a script of steps to play, and a log of what came of each.
#![tactic(auto)]

pub mod entry;
pub mod forms;
pub mod lent;
pub mod play;
pub mod recorder;
