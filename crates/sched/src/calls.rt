// The six calls: what may turn a call away, in the order of the rules, then the change.
ghost use Rattle.std.specs.Prelude.{◌≡◌, true, false, MatchResult};
ghost use Rattle.sched.specs.Called.{There, Waiting};
ghost use Rattle.sched.specs.declared.refusal.Refusal.TheVariants as refusal;
ghost use Rattle.sched.specs.Held.{concerns, task_of};

use crate::refusal::Refusal;
use crate::{Call, Scheduler};
use quantities::ids::TaskId;

mod existence;
mod locking;
mod waking;

impl Call {
    // The task that makes this call, or that it is about.
    fn task(self) -> Option<u32>
        ensures { result ≡ task_of self }
    {
        match self {
            Call::Make(_) => None,
            Call::End(i) | Call::Wake(i) | Call::Sleep(i) | Call::Lock(i, _) | Call::Unlock(i, _) =>
                Some(i),
        }
    }

    pub(crate) fn concerns(self, i: TaskId) -> bool
        ensures { result ≡ concerns i.index self }
    {
        self.task() == Some(u32::from(i))
    }
}

impl Scheduler {
    // The task of this number.
    fn task(&self, number: u32) -> Result<TaskId, Refusal>
        ensures { MatchResult result (λ i. (i.index ≡ number) × There self.now i.index true) (λ e. (e ≡ refusal.NoTask) × There self.now number false) }
    {
        self.tasks.find(number).ok_or(Refusal::NoTask)
    }

    // Turned away if the task waits: what becomes of it is up to its runner.
    fn not_waiting(&self, i: TaskId) -> Result<(), Refusal>
        ensures { MatchResult result (λ _. Waiting self.now i.index false) (λ e. (e ≡ refusal.Waits) × Waiting self.now i.index true) }
    {
        if self.locks.is_waiting(i) {
            return Err(Refusal::Waits);
        }
        Ok(())
    }
}
