// wake and sleep.
ghost use Rattle.sched.specs.Called.{Called, done};

use crate::refusal::Refusal;
use crate::{Call, Scheduler};

impl Scheduler {
    pub(crate) fn wake(&mut self, number: u32) -> Result<(), Refusal>
        ensures { Called done self.old self.new (Call.Wake number) result }
    {
        let i = self.task(number)?;
        self.tasks.set_awake(i, true);
        Ok(())
    }

    // A task that waits can't be put to sleep: whether it wants a tick is up to its runner.
    pub(crate) fn sleep(&mut self, number: u32) -> Result<(), Refusal>
        ensures { Called done self.old self.new (Call.Sleep number) result }
    {
        let i = self.task(number)?;
        self.not_waiting(i)?;
        self.tasks.set_awake(i, false);
        Ok(())
    }
}
