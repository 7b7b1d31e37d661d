// What a place looks like between two ticks, for whoever shows or explains the house: looking changes nothing.
ghost use Rattle.std.specs.Prelude.{◌≡◌};
ghost use Rattle.sched.specs.House.{House};
ghost use Rattle.sched.specs.Stores.{Holds, owner_of, place_of};
ghost use Rattle.sched.specs.View.{Sees, occupies};

use crate::tasks::Slot;
use crate::wants::asks;
use crate::{Kind, Scheduler};
use quantities::ids::{LockId, TaskId};
use windows::Window;

// Who is at a place: nobody, or one of two. In the numbers that a kind has, whose text is fixed.
#[derive(Clone, Copy)]
pub enum Occupant {
    Nobody,
    Task(Kind),
    // the quota and the period of a task that ended before its window was over
    Kept(u32, u32),
}

impl From<Slot> for Occupant {
    ghost from_gives = { λ s o. occupies o ≡ place_of s };

    #[tactic(auto, unfolding(crate::specs::Stores::place_of, crate::specs::View::occupies))]
    fn from(slot: Slot) -> Occupant {
        match slot {
            Slot::Free => Occupant::Nobody,
            Slot::Task(promise) => Occupant::Task(promise.into()),
            Slot::Kept(reservation) => Occupant::Kept(reservation.quota(), reservation.period()),
        }
    }
}

#[derive(Clone, Copy)]
pub struct View {
    pub occupant: Occupant,
    pub awake: bool,
    // the lock that it waits for
    pub waits: Option<LockId>,
    // it wants the next tick: whoever runs for it is awake
    pub wants: bool,
    pub window: Window,
}

impl Scheduler {
    // What a place looks like before the next tick.
    pub fn view(&self, i: TaskId) -> View
        ensures { (h : House) → Holds self.now h → Sees h i.index result }
    {
        View {
            occupant: self.tasks.slot(i).into(),
            awake: self.tasks.is_awake(i),
            waits: self.locks.awaited(i),
            wants: asks(&self.tasks, &self.locks, i),
            window: self.reserved.window(i),
        }
    }

    // Who owns a lock.
    pub fn owner_of(&self, m: LockId) -> Option<TaskId>
        ensures { (h : House) → Holds self.now h → owner_of result ≡ h.owner m.index }
    {
        self.locks.owner(m)
    }
}
