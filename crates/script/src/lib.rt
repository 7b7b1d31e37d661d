// The script language: a line to a command, an answer to text, and how `any` chooses.
#![tactic(auto)]

pub mod command;
pub mod generator;
pub mod laws;
pub mod line;
pub mod page;
pub mod printer;
pub mod sink;
pub mod word;
