// lock and unlock.
ghost use Rattle.std.specs.Prelude.{◌≡◌, true};
ghost use Rattle.sched.specs.Called.{Called, done};
ghost use Rattle.sched.specs.Held.{can_take, Ready};
ghost use Rattle.sched.specs.House.{House};
ghost use Rattle.sched.specs.Stores.{Holds};

use crate::refusal::Refusal;
use crate::{Call, Scheduler};
use quantities::ids::{LockId, TaskId};

impl Scheduler {
    // Whether the lock is free, and the task there, awake and waiting for nothing.
    pub fn can_take(&self, i: TaskId, m: LockId) -> bool
        ensures value { (h : House) → Holds self.now h → result ≡ can_take h i.index m.index }
        ensures ready { result ≡ true → Ready self.now i.index m.index }
    {
        self.tasks.slot(i).is_task()
            && !self.locks.is_waiting(i)
            && self.tasks.is_awake(i)
            && self.locks.owner(m).is_none()
    }

    pub(crate) fn lock(&mut self, number: u32, lock: u32) -> Result<(), Refusal>
        ensures { Called done self.old self.new (Call.Lock number lock) result }
    {
        let i = self.task(number)?;
        let m = LockId::try_from(lock)?;
        self.not_waiting(i)?;
        if !self.tasks.is_awake(i) {
            return Err(Refusal::Waits);
        }
        let Some(owner) = self.locks.owner(m) else {
            self.locks.take(m, i);
            return Ok(());
        };
        // The runner and not the owner: a ring of three closes through somebody between.
        if self.locks.runner(owner) == i {
            return Err(Refusal::Ring);
        }
        self.locks.wait(m, i);
        Ok(())
    }

    pub(crate) fn unlock(&mut self, number: u32, lock: u32) -> Result<(), Refusal>
        ensures { Called done self.old self.new (Call.Unlock number lock) result }
    {
        let i = self.task(number)?;
        let m = LockId::try_from(lock)?;
        self.not_waiting(i)?;
        if !self.locks.is_owner(m, i) {
            return Err(Refusal::NotOwner);
        }
        self.locks.pass_on(m);
        Ok(())
    }
}
