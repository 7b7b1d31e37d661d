// The kinds of promise, as the tick sees them. Each is a type of its own, asked in the order of the rules; a further kind
// is a further type.
ghost use Rattle.std.specs.Prelude.{◌≡◌, ℕ, Bool, false, MatchOption};
ghost use Rattle.sched.specs.House.{House, some'};
ghost use Rattle.sched.specs.Midtick.{SlotsOf, WantsOf};

use crate::tasks::Tasks;
use crate::wants::Wants;
use quantities::ids::TaskId;

pub trait Class {
    // what it keeps is what the house has
    ghost stands: { Self → House → Type 0 };
    // which of its tasks asks for the tick
    ghost asks: { House → ℕ → Bool };
    // which of them the tick is owed to, if it comes to this kind
    ghost owed: { House → ℕ → Type 0 };

    // Which of its tasks is to have the tick: none only if none asks. Who is there and who wants come one by one: only
    // reserved tasks choose by both, fixed ones by one of them, fair ones by neither, having looked at both as the tick began.
    fn candidate(&self, tasks: &Tasks, wants: &Wants) -> Option<TaskId>
        ensures { (h : House) → SlotsOf tasks.now h → WantsOf wants.now h → stands self.now h → MatchOption result (some' 64 (asks h) ≡ false) (λ i. owed h i.index) };
}
