// Steps and entries as plain numbers, not enums: the C interface needs the layout that C gives them.
ghost use Rattle.std.specs.Prelude.{◌≡◌, false, ◌==◌};
ghost use Rattle.export.specs.Wire.{good, call_of, step_of, entry_of};

use memory::entry::{Entry, Step};
use memory::forms::{AsEntry, AsStep};
use sched::{Answer, Call, Kind};

// What is asked for: 0 a tick; 1 to 3 make reserved (quota, period), fixed (rank), fair (weight); 4 end, 5 wake and 6 sleep
// (task); 7 lock and 8 unlock (task, lock). Numbers that a step doesn't need are not looked at.
#[repr(C)]
#[derive(Clone, Copy)]
pub struct WireStep {
    pub what: u32,
    pub first: u32,
    pub second: u32,
}

// The step, and its answer. To a tick: 0 nobody's, 1 somebody's, `first` says whose and `second` who ran.
// To a call: 0 done, 1 the task's number, 2 the refusal's number, which is `value`.
#[repr(C)]
#[derive(Clone, Copy)]
pub struct WireEntry {
    pub what: u32,
    pub first: u32,
    pub second: u32,
    pub answer: u32,
    pub value: u32,
}

impl WireStep {
    // Whether it says what is asked for.
    pub fn is_good(self) -> bool
        ensures { result ≡ good self }
    {
        self.what <= 8
    }
}

// The step that a good one asks for.
#[tactic(auto, unfolding(crate::specs::Wire::step_of, crate::specs::Wire::call_of, crate::specs::Wire::kind_of))]
impl From<WireStep> for Step {
    ghost from_gives = { λ wire step. step ≡ step_of wire };

    fn from(wire: WireStep) -> Step {
        let WireStep {
            what,
            first,
            second,
        } = wire;
        match what {
            0 => Step::Tick,
            1 => Step::Calls(Call::Make(Kind::Reserved(first, second))),
            2 => Step::Calls(Call::Make(Kind::Fixed(first))),
            3 => Step::Calls(Call::Make(Kind::Fair(first))),
            4 => Step::Calls(Call::End(first)),
            5 => Step::Calls(Call::Wake(first)),
            6 => Step::Calls(Call::Sleep(first)),
            7 => Step::Calls(Call::Lock(first, second)),
            _ => Step::Calls(Call::Unlock(first, second)),
        }
    }
}

impl AsStep for WireStep {
    ghost step = { step_of };

    ghost says = { λ wire step is. is };
}

// The call, in numbers.
#[tactic(auto, unfolding(crate::specs::Wire::call_of, crate::specs::Wire::kind_of))]
impl From<Call> for WireStep {
    ghost from_gives = { λ call wire. ((wire.what == 0) ≡ false) × (call_of wire.what wire.first wire.second ≡ call) };

    fn from(call: Call) -> WireStep {
        let (what, first, second) = match call {
            Call::Make(Kind::Reserved(quota, period)) => (1, quota, period),
            Call::Make(Kind::Fixed(rank)) => (2, rank, 0),
            Call::Make(Kind::Fair(weight)) => (3, weight, 0),
            Call::End(i) => (4, i, 0),
            Call::Wake(i) => (5, i, 0),
            Call::Sleep(i) => (6, i, 0),
            Call::Lock(i, m) => (7, i, m),
            Call::Unlock(i, m) => (8, i, m),
        };
        WireStep {
            what,
            first,
            second,
        }
    }
}

// The entry, in numbers.
#[tactic(auto, unfolding(crate::specs::Wire::entry_of))]
impl From<Entry> for WireEntry {
    ghost from_gives = { λ entry wire. entry_of wire ≡ entry };

    fn from(entry: Entry) -> WireEntry {
        match entry {
            Entry::Ran(whose, runs) => WireEntry {
                what: 0,
                first: whose.unwrap_or(0),
                second: runs,
                answer: u32::from(whose.is_some()),
                value: 0,
            },
            Entry::Called(call, answer) => WireEntry::called(call.into(), answer),
        }
    }
}

impl AsEntry for WireEntry {
    ghost entry = { entry_of };

    ghost says = { λ entry wire is. is };
}

#[tactic(auto, unfolding(crate::specs::Wire::entry_of, crate::specs::Wire::answer_of))]
impl WireEntry {
    fn called(step: WireStep, a: Answer) -> WireEntry
        ensures { (step.what == 0) ≡ false → entry_of result ≡ Entry.Called (call_of step.what step.first step.second) a }
    {
        let WireStep {
            what,
            first,
            second,
        } = step;
        let (answer, value) = match a {
            Answer::Done => (0, 0),
            Answer::Id(i) => (1, i),
            Answer::No(n) => (2, n),
        };
        WireEntry {
            what,
            first,
            second,
            answer,
            value,
        }
    }
}
