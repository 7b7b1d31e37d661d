// Who wants a tick: a task whose runner is awake.
ghost use Rattle.std.specs.Prelude.{◌≡◌, false, slice_index_or};
ghost use Rattle.sched.specs.House.{House};
ghost use Rattle.sched.specs.Midtick.{Seen, WantsOf, asking};

use crate::locks::Locks;
use crate::tasks::Tasks;
use quantities::ids::TaskId;

#[derive(Drop)]
pub struct Wants {
    flags: [bool; 64],
}

impl Wants {
    // Settled once at the beginning of a tick; a chain is walked only for a task that waits.
    pub fn now(tasks: &Tasks, locks: &Locks) -> Wants
        ensures { (h : House) → Seen tasks.now locks.now h → WantsOf result h }
    {
        let mut flags = [false; 64];
        for i in TaskId::all() {
            flags[i.index()] = asks(tasks, locks, i);
        }
        Wants { flags }
    }

    pub fn of(&self, i: TaskId) -> bool
        ensures { result ≡ slice_index_or self.now.flags i.index false }
    {
        self.flags[i.index()]
    }
}

// Whether a task is there and wants the tick. Its runner doesn't wait, so it is enough that it is awake.
pub fn asks(tasks: &Tasks, locks: &Locks, i: TaskId) -> bool
    ensures { (h : House) → Seen tasks.now locks.now h → result ≡ asking h i.index }
{
    tasks.slot(i).is_task() && tasks.is_awake(locks.runner(i))
}
