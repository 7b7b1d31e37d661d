// What a script asks for, and what a log holds.
ghost use Rattle.std.specs.Prelude.{◌≡◌};

use sched::{Answer, Call, Next};

// A step of a script. No Option of a call: a tick is a step as much as a call is.
#[derive(Clone, Copy, Default)]
pub enum Step {
    #[default]
    Tick,
    Calls(Call),
}

// An entry of a log: a tick, whose it was and who ran in it, as the trait `World` tells them; a call and its answer.
#[derive(Clone, Copy)]
pub enum Entry {
    Ran(Option<u32>, u32),
    Called(Call, Answer),
}

// What stands where nothing was recorded.
impl Default for Entry {
    ghost use Rattle.memory.specs.Run.{blank};

    ghost is_default = { λ e. e ≡ blank };

    fn default() -> Entry {
        Entry::Ran(None, 0)
    }
}

// What comes next is the step.
impl From<Step> for Next {
    ghost use Rattle.memory.specs.Played.{next_of};

    ghost from_gives = { λ step next. next ≡ next_of step };

    fn from(step: Step) -> Next {
        match step {
            Step::Tick => Next::Tick,
            Step::Calls(c) => Next::Calls(c),
        }
    }
}
