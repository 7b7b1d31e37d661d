// Locks that are held, as a value: they are given back when the value is dropped, the last one first, by the same function as the call.
ghost use Rattle.std.specs.Prelude.{◌≡◌, ◌<◌, true, false, not, [], ◌∷◌, is_some, MatchOption};
ghost use Rattle.arrayvec.specs.ArrayVec.{array_vec_len};
ghost use Rattle.sched.specs.House.{House};
ghost use Rattle.sched.specs.Held.{can_take, concerns, locks_of, HeldAll, Ready, Took, Unlocked, Gave, Let, Ticked};
ghost use Rattle.sched.specs.Stores.{Holds, owner_of};
ghost use Rattle.sched.specs.View.{Sees};

use crate::view::View;
use crate::{Answer, Call, Scheduler};
use arrayvec::ArrayVec;
use quantities::ids::{LockId, TaskId};

// While it lives nobody else has the scheduler, and it lets nothing through by which its task could come to wait or lose a lock: so it can always give back what it holds.
// A further lock is one more in the same value, since a guard can't lend on what it was itself lent.
pub struct Guard<'a> {
    scheduler: &'a mut Scheduler,
    task: TaskId,
    // nobody holds a lock twice, so there is room for all that one task can hold; by number, since an `ArrayVec` asks for a
    // default, which an id hasn't
    locks: ArrayVec<u32, 64>,
}

// `lent` and `ids` stand in each contract: each call says of itself what it leaves alone.
impl<'a> Guard<'a> {
    // It holds nothing yet.
    pub fn new(scheduler: &'a mut Scheduler, i: TaskId) -> Guard<'a>
        ensures lent { result.scheduler.ghost_name ≡ scheduler.entry.ghost_name }
        ensures same { result.scheduler.now ≡ scheduler.old }
        ensures ids { (result.task ≡ i) × (locks_of result.locks ≡ []) }
    {
        Guard {
            scheduler,
            task: i,
            locks: ArrayVec::new(),
        }
    }

    // The lock is the task's. It has to be to be had at once.
    pub fn take(scheduler: &'a mut Scheduler, i: TaskId, m: LockId) -> Guard<'a>
        requires { Ready scheduler.old i.index m.index }
        ensures lent { result.scheduler.ghost_name ≡ scheduler.entry.ghost_name }
        ensures ids { (result.task ≡ i) × (locks_of result.locks ≡ m.index ∷ []) }
        ensures taken { Took scheduler.old result.scheduler.now i.index m.index }
    {
        let mut guard = Guard::new(scheduler, i);
        guard.hold(m);
        guard
    }

    // Whether its task can take a further lock.
    pub fn can_take(&self, m: LockId) -> bool
        ensures value { (h : House) → Holds self.now.scheduler.now h → result ≡ can_take h self.now.task.index m.index }
        ensures ready { result ≡ true → Ready self.now.scheduler.now self.now.task.index m.index }
    {
        self.scheduler.can_take(self.task, m)
    }

    // The lock is the task's, or false, as a set's `insert` has it, if it isn't to be had at once: then nothing has changed.
    pub fn lock(&mut self, m: LockId) -> bool
        ensures lent { self.new.scheduler.ghost_name ≡ self.old.scheduler.ghost_name }
        ensures ids { self.new.task ≡ self.old.task }
        ensures value { (h : House) → Holds self.old.scheduler.now h → HeldAll h self.old.task.index (locks_of self.old.locks) → result ≡ can_take h self.old.task.index m.index }
        ensures taken { result ≡ true → (locks_of self.new.locks ≡ m.index ∷ locks_of self.old.locks) × Took self.old.scheduler.now self.new.scheduler.now self.old.task.index m.index }
        ensures refused { result ≡ false → (self.new.locks ≡ self.old.locks) × (self.new.scheduler.now ≡ self.old.scheduler.now) }
    {
        if self.locks.is_full() {
            return false;
        }
        if !self.can_take(m) {
            return false;
        }
        self.hold(m);
        true
    }

    fn hold(&mut self, m: LockId)
        requires ready { Ready self.old.scheduler.now self.old.task.index m.index }
        requires room { array_vec_len self.old.locks < 64 }
        ensures lent { self.new.scheduler.ghost_name ≡ self.old.scheduler.ghost_name }
        ensures ids { self.new.task ≡ self.old.task }
        ensures held { locks_of self.new.locks ≡ m.index ∷ locks_of self.old.locks }
        ensures taken { Took self.old.scheduler.now self.new.scheduler.now self.old.task.index m.index }
    {
        let lock = u32::from(m);
        let _done = self.scheduler.lock(self.task.into(), lock);
        self.locks.push(lock);
    }

    // The lock that it took last is given back. Its number, or None if it holds nothing.
    pub fn unlock(&mut self) -> Option<u32>
        ensures lent { self.new.scheduler.ghost_name ≡ self.old.scheduler.ghost_name }
        ensures ids { self.new.task ≡ self.old.task }
        ensures given { MatchOption result ((locks_of self.old.locks ≡ []) × (self.new.locks ≡ self.old.locks) × (self.new.scheduler.now ≡ self.old.scheduler.now)) (λ m. (locks_of self.old.locks ≡ m ∷ locks_of self.new.locks) × Gave self.old.scheduler.now self.new.scheduler.now self.old.task.index (m ∷ [])) }
    {
        let lock = self.locks.pop()?;
        let _done = self.scheduler.unlock(self.task.into(), lock);
        Some(lock)
    }

    // What a place looks like while the locks are held.
    pub fn view(&self, i: TaskId) -> View
        ensures { (h : House) → Holds self.now.scheduler.now h → Sees h i.index result }
    {
        self.scheduler.view(i)
    }

    // Who owns a lock.
    pub fn owner_of(&self, m: LockId) -> Option<TaskId>
        ensures { (h : House) → Holds self.now.scheduler.now h → owner_of result ≡ h.owner m.index }
    {
        self.scheduler.owner_of(m)
    }

    // A call of others, or None if it concerns the guard's own task.
    pub fn call(&mut self, c: Call) -> Option<Answer>
        ensures lent { self.new.scheduler.ghost_name ≡ self.old.scheduler.ghost_name }
        ensures ids { (self.new.task ≡ self.old.task) × (self.new.locks ≡ self.old.locks) }
        ensures lets { is_some result ≡ not (concerns self.old.task.index c) }
        ensures answered { MatchOption result (self.new.scheduler.now ≡ self.old.scheduler.now) (λ a. Let self.old.scheduler.now self.new.scheduler.now self.old.task.index c a) }
    {
        if c.concerns(self.task) {
            return None;
        }
        Some(self.scheduler.call(c))
    }

    // A tick goes by: whose it is, and who runs in it, as `hours` hands them on.
    pub fn pick(&mut self) -> (Option<u32>, u32)
        ensures lent { self.new.scheduler.ghost_name ≡ self.old.scheduler.ghost_name }
        ensures ids { (self.new.task ≡ self.old.task) × (self.new.locks ≡ self.old.locks) }
        ensures ticked { Ticked self.old.scheduler.now self.new.scheduler.now self.old.task.index result.0 result.1 }
    {
        self.scheduler.pick()
    }
}

impl Drop for Guard<'_> {
    fn drop(self)
        ensures given { Gave self.entry.scheduler.now self.exit.0.now self.entry.task.index (locks_of self.entry.locks) }
    {
        let Guard {
            scheduler,
            task,
            locks,
        } = self;
        scheduler.unlock_all(task, locks);
    }
}

impl Scheduler {
    // What a guard holds is given back, the last one first.
    fn unlock_all(&mut self, i: TaskId, locks: ArrayVec<u32, 64>)
        ensures { Unlocked self.old self.new i.index (locks_of locks) }
    {
        let mut left = locks;
        while let Some(lock) = left.pop() {
            let _done = self.unlock(i.into(), lock);
        }
    }
}
