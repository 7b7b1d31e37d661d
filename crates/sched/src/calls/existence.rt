// make and end.
ghost use Rattle.sched.specs.Called.{Called, done, id_of};

use crate::promise::Promise;
use crate::refusal::Refusal;
use crate::{Call, Kind, Scheduler};
use quantities::ids::TaskId;

// Shares and kept shares are at most three quarters of 10,080.
const MOST_SHARES: u32 = 7560;

impl Scheduler {
    pub(crate) fn make(&mut self, kind: Kind) -> Result<TaskId, Refusal>
        ensures { Called id_of self.old self.new (Call.Make kind) result }
    {
        let promise = Promise::try_from(kind)?;
        let i = self.tasks.free_place().ok_or(Refusal::NoPlace)?;
        if self.tasks.shares() + promise.share() > MOST_SHARES {
            return Err(Refusal::NoShare);
        }
        self.tasks.put(i, promise);
        self.reserved.made(i);
        self.fixed.made(i, promise);
        self.fair.made(i, promise);
        Ok(i)
    }

    pub(crate) fn end(&mut self, number: u32) -> Result<(), Refusal>
        ensures { Called done self.old self.new (Call.End number) result }
    {
        let i = self.task(number)?;
        self.not_waiting(i)?;
        if self.locks.owns_any(i) {
            return Err(Refusal::OwnsLock);
        }
        let left = self.reserved.leaves(i, self.tasks.slot(i));
        self.tasks.clear(i, left);
        self.fixed.ended(i);
        Ok(())
    }
}
