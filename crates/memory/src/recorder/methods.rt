// Making a recorder, what it hands out, and reading what it has recorded.
ghost use Rattle.std.specs.Prelude.{◌≡◌, ◌<◌, ◌≤◌, T, [], ◌∷◌, ◌++◌, length, MatchOption, slice_index_or};
ghost use Rattle.sched.specs.House.{empty};
ghost use Rattle.memory.specs.Run.{IsRun, outcome, allowed, blank};
ghost use Rattle.memory.specs.Recorded.{script_of, entries_of};
ghost use Rattle.memory.specs.Played.{Asks};

use crate::entry::{Entry, Step};
use crate::recorder::Recorder;
use arrayvec::ArrayVec;
use sched::Next;

impl Recorder {
    // With this script, and nothing recorded; none if the script is longer than there is room for.
    pub fn new(script: &[Step]) -> Option<Recorder>
        ensures { MatchOption result (1024 < length script.now) (λ w. (script_of w ≡ script.now) × (entries_of w ≡ [])) }
    {
        let script = ArrayVec::try_from(script).ok()?;
        Some(Recorder {
            script,
            log: ArrayVec::new(),
        })
    }

    // How many entries there are.
    pub fn len(&self) -> usize
        ensures { result ≡ length (entries_of self.now) }
    {
        self.log.len()
    }

    // The entry of this number, from 0.
    pub fn entry(&self, k: usize) -> Option<Entry>
        ensures { MatchOption result (length (entries_of self.now) ≤ k) (λ e. (k < length (entries_of self.now)) × (e ≡ slice_index_or (entries_of self.now) k blank)) }
    {
        self.log.get(k).copied()
    }

    // All entries: a legal run from the empty house.
    pub fn entries(&self) -> &[Entry]
        ensures value { result.now ≡ entries_of self.now }
        ensures runs { IsRun result.now }
    {
        self.log.as_slice()
    }

    // The script's next step, if there is one.
    pub fn asks(&self) -> Next
        ensures { Asks (script_of self.now) 1024 (length (entries_of self.now)) result }
    {
        self.script
            .get(self.log.len())
            .map_or(Next::Over, |&step| step.into())
    }

    // One more entry, which the rules allow.
    pub(super) fn record(&mut self, entry: Entry)
        requires { (length (entries_of self.old) < 1024) × (T (allowed (outcome empty (entries_of self.old)) entry)) }
        ensures { entries_of self.new ≡ entries_of self.old ++ (entry ∷ []) }
    {
        self.log.push(entry);
    }
}
