// A script played into a log by the scheduler, step by step, and what the log then holds.
// `as` from a length, for which the library has no `From`, loses nothing.
ghost use Rattle.std.specs.Prelude.{◌≡◌, ◌<◌, length, MatchOption};
ghost use Rattle.memory.specs.Played.{PlayedAs};
ghost use Rattle.memory.specs.Recorded.{Ended, entries_of};
ghost use Rattle.memory.specs.Run.{IsRun};

use crate::entry::{Entry, Step};
use crate::forms::{AsEntry, AsStep};
use crate::lent::LentRecorder;
use crate::recorder::Recorder;
use sched::{Next, Scheduler, hours};

// The hours of this script on a recorder of its own; none if it is longer than there is room for.
pub fn recorded(script: &[Step]) -> Option<Recorder>
    ensures { MatchOption result (1024 < length script.now) (λ w. IsRun (entries_of w)) }
{
    let mut w = Recorder::new(script)?;
    hours(&mut w, script.len() as u64);
    Some(w)
}

// Plays the script into the log from its start, as far as there is room, and says how many entries it wrote.
pub fn play_into<'a, S: AsStep, E: AsEntry>(script: &'a [S], log: &'a mut [E]) -> usize
    ensures { PlayedAs S.step E.entry script.now log.old log.new result }
{
    let many = script.len() as u64;
    let mut w = LentRecorder::new(script, log);
    play(&mut w, many);
    w.len()
}

// The hours of this world: so many turns, or as many as there are steps and room. A loop of its own, since the text of `hours`
// is fixed and it ensures nothing.
fn play<'a, S: AsStep, E: AsEntry>(w: &mut LentRecorder<'a, S, E>, many: u64)
    requires begins { w.old.used ≡ 0 }
    ensures { Ended S.step E.entry w.old w.new many }
{
    let mut s = Scheduler::new();
    for _ in 0..many {
        let entry = match w.next() {
            Next::Calls(c) => Entry::Called(c, s.call(c)),
            Next::Tick => {
                let (whose, runs) = s.pick();
                Entry::Ran(whose, runs)
            }
            Next::Over => return,
        };
        w.record(entry);
    }
}
