// The recorder as a world: the house is what the log comes to, and it may go on while there is room.
// What is told is one entry more: lines that hand on, as those of the lent recorder are.
ghost use Rattle.std.specs.Prelude.{◌-◌, length};
ghost use Rattle.sched.specs.House.{empty};
ghost use Rattle.memory.specs.Run.{outcome};
ghost use Rattle.memory.specs.Recorded.{entries_of};

use crate::entry::Entry;
use crate::recorder::Recorder;
use sched::{Answer, Call, Next, World};

impl World for Recorder {
    ghost house = { λ w. outcome empty (entries_of w) };

    ghost left = { λ w. 1024 - length (entries_of w) };

    fn next(&mut self) -> Next {
        self.asks()
    }

    fn told(&mut self, c: Call, a: Answer) {
        self.record(Entry::Called(c, a));
    }

    fn runs(&mut self, whose: Option<u32>, runs: u32) {
        self.record(Entry::Ran(whose, runs));
    }
}
