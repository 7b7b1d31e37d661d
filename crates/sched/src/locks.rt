// Who owns each lock, who waits for it, and who runs for whom.
// Contracts speak of each house that they stand for: locks have no model, as a scheduler has none.
ghost use Rattle.std.specs.Prelude.{◌≡◌, ℕ, suc, ◌-◌, Bool, true, false, not, List, [], ◌∷◌, ◌++◌, MatchOption, ◌==◌, ◌≢◌, slice_set};
ghost use Rattle.std.specs.declared.option.Option.TheVariants as option;
ghost use Rattle.queues.specs.Members.{Free};
ghost use Rattle.queues.specs.Rings as queue;
ghost use Rattle.sched.specs.House.{House, empty, put, holds, runner, first_of, rest_of};
ghost use Rattle.sched.specs.Stores.{Reads, owner_of, awaited_of, Locked};

use quantities::ids::{LockId, QueueId, TaskId};
use queues::Queues;

#[derive(Drop)]
pub struct Locks {
    owners: [Option<TaskId>; 64],
    // the wait queue of each lock; a task stands in that of the lock that it waits for
    waiters: Queues,
}

impl Locks {
    pub fn new() -> Locks
        ensures owners { Reads owner_of option.None result.owners empty.owner }
        ensures rows { queue.Holds result.waiters empty.row }
    {
        Locks {
            owners: [None; 64],
            waiters: Queues::new(),
        }
    }

    pub fn owner(&self, m: LockId) -> Option<TaskId>
        ensures { (h : House) → Locked self.now h → owner_of result ≡ h.owner m.index }
    {
        self.owners[m.index()]
    }

    pub fn is_owner(&self, m: LockId, i: TaskId) -> bool
        ensures { (h : House) → Locked self.now h → result ≡ (h.owner m.index == suc i.index) }
    {
        self.owner(m) == Some(i)
    }

    pub fn is_waiting(&self, i: TaskId) -> bool
        ensures { (h : House) → Locked self.now h → result ≡ not (h.waits i.index == 0) }
    {
        self.waiters.queue_of(i).is_some()
    }

    // The lock that it waits for.
    pub fn awaited(&self, i: TaskId) -> Option<LockId>
        ensures { (h : House) → Locked self.now h → awaited_of result ≡ h.waits i.index }
    {
        let q = self.waiters.queue_of(i)?;
        Some(LockId::from(q))
    }

    // Whether it owns any lock.
    pub fn owns_any(&self, i: TaskId) -> bool
        ensures { (h : House) → Locked self.now h → result ≡ holds h i.index }
    {
        self.owners.contains(&Some(i))
    }

    // Who owns the lock that it waits for, if it waits.
    fn waits_for(&self, i: TaskId) -> Option<TaskId>
        ensures { (h : House) → Locked self.now h → MatchOption result (h.waits i.index ≡ 0) (λ j. (h.waits i.index ≢ 0) × (h.owner (h.waits i.index - 1) ≡ suc j.index)) }
    {
        let q = self.waiters.queue_of(i)?;
        self.owners[q.index()]
    }

    // Who runs when the tick is i's: i, or who owns what it waits for, and so on. Nobody waits in a ring, so 64 steps are enough.
    // No `while let`: that the chain ends is known only of a scheduler that stands for a house, and a loop has to end anyway.
    pub fn runner(&self, i: TaskId) -> TaskId
        ensures { (h : House) → Locked self.now h → result.index ≡ runner 64 h i.index }
    {
        let mut at = i;
        for step in 0..64u32 {
            let Some(owner) = self.waits_for(at) else {
                return at;
            };
            at = owner;
        }
        at
    }

    // A free lock is i's.
    pub fn take(&mut self, m: LockId, i: TaskId)
        ensures owners { self.new.owners ≡ slice_set self.old.owners m.index (option.Some i) }
        ensures waiters { self.new.waiters ≡ self.old.waiters }
    {
        self.owners[m.index()] = Some(i);
    }

    // Last in the queue of a lock that another owns.
    pub fn wait(&mut self, m: LockId, i: TaskId)
        ensures owners { self.new.owners ≡ self.old.owners }
        ensures rows { (f : ℕ → List ℕ) → queue.Holds self.old.waiters f → Free f i.index → queue.Holds self.new.waiters (put m.index (f m.index ++ (i.index ∷ [])) f) }
    {
        let _pushed = self.waiters.push_back(QueueId::from(m), i);
    }

    // The lock goes to whoever has waited longest, or is free.
    pub fn pass_on(&mut self, m: LockId)
        ensures owners { (f : ℕ → List ℕ) (o : ℕ → ℕ) → queue.Holds self.old.waiters f → Reads owner_of option.None self.old.owners o → Reads owner_of option.None self.new.owners (put m.index (first_of (f m.index)) o) }
        ensures rows { (f : ℕ → List ℕ) → queue.Holds self.old.waiters f → queue.Holds self.new.waiters (put m.index (rest_of (f m.index)) f) }
    {
        self.owners[m.index()] = self.waiters.pop_front(QueueId::from(m));
    }
}
