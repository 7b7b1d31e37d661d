// Making a recorder over lent slices; what it hands out and writes, in terms of the slices.
ghost use Rattle.std.specs.Prelude.{◌≡◌, ◌<◌, length, map};
ghost use Rattle.memory.specs.Recorded.{room_in, Wrote};
ghost use Rattle.memory.specs.Played.{Asks};

use crate::entry::{Entry, Step};
use crate::forms::{AsEntry, AsStep};
use crate::lent::LentRecorder;
use sched::Next;

impl<'a, S: AsStep, E: AsEntry> LentRecorder<'a, S, E> {
    // To play this script into this log, from its start.
    pub fn new(script: &'a [S], log: &'a mut [E]) -> LentRecorder<'a, S, E>
        ensures script { result.script.now ≡ script.now }
        ensures log { result.log.now ≡ log.old }
        ensures used { result.used ≡ 0 }
        ensures lender { result.log.ghost_name ≡ log.entry.ghost_name }
    {
        LentRecorder {
            script,
            log,
            used: 0,
        }
    }

    // How many entries were written.
    pub fn len(&self) -> usize
        ensures { result ≡ self.now.used }
    {
        self.used
    }

    // The script's next step, if there is one and room for its entry.
    pub fn next(&mut self) -> Next
        ensures same { self.new ≡ self.old }
        ensures asks { Asks (map S.step self.old.script.now) (length self.old.log.now) self.old.used result }
    {
        if self.used >= self.script.len() || self.used >= self.log.len() {
            return Next::Over;
        }
        let step: Step = self.script[self.used].into();
        step.into()
    }

    // One more entry.
    pub(crate) fn record(&mut self, entry: Entry)
        requires { 0 < room_in self.old }
        ensures { Wrote E.entry self.old self.new entry }
    {
        self.log[self.used] = entry.into();
        self.used += 1;
    }
}
