// A world over lent slices: a script to hand out, a log to write.
use crate::entry::{Entry, Step};

mod methods;
pub mod world;

#[derive(Drop)]
pub struct LentRecorder<'a, S = Step, E = Entry> {
    script: &'a [S],
    log: &'a mut [E],
    // how many entries stand in the log, which is the lender's, so that its length is no count of them
    used: usize,
}
