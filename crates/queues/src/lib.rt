// Queues, first come first served, of 64 members: who waits for a lock, and whose turn it is in a rank.
// A member stands in at most one queue, and there once. Every operation is a few writes, whoever else stands there.
#![tactic(auto)]

pub mod fifo;
mod packed;

pub use fifo::Queues;
