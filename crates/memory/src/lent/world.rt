// The lent recorder as a world: the house is what was written comes to, and it may go on while there is room.
// What is told is one entry more: lines that hand on, as those of the recorder are.
ghost use Rattle.memory.specs.Recorded.{house_of, room_in};

use crate::entry::Entry;
use crate::forms::{AsEntry, AsStep};
use crate::lent::LentRecorder;
use sched::{Answer, Call, Next, World};

impl<'a, S: AsStep, E: AsEntry> World for LentRecorder<'a, S, E> {
    ghost house = { house_of E.entry };

    ghost left = { room_in };

    fn next(&mut self) -> Next {
        LentRecorder::next(self)
    }

    fn told(&mut self, c: Call, a: Answer) {
        self.record(Entry::Called(c, a));
    }

    fn runs(&mut self, whose: Option<u32>, runs: u32) {
        self.record(Entry::Ran(whose, runs));
    }
}
