// A tick: what there was before it, whose it was, and who ran in it.
use crate::kinds::Class;
use quantities::ids::{LockId, TaskId};
use sched::Scheduler;
use sched::view::{Occupant, View};
use windows::Window;

#[derive(Drop)]
pub struct Moment {
    // by task
    places: [View; 64],
    // by lock: a lock is no place, so this is no second column of the places
    owners: [Option<TaskId>; 64],
    turn: Option<(TaskId, TaskId)>,
}

const EMPTY: View = View {
    occupant: Occupant::Nobody,
    awake: false,
    waits: None,
    wants: false,
    window: Window { span: None },
};

impl Moment {
    // The next tick of the scheduler, which then has passed.
    pub fn next(scheduler: &mut Scheduler) -> Self {
        let mut places = [EMPTY; 64];
        for i in TaskId::all() {
            places[i.index()] = scheduler.view(i);
        }
        let mut owners = [None; 64];
        for m in LockId::all() {
            owners[m.index()] = scheduler.owner_of(m);
        }
        let (whose, runs) = scheduler.pick();
        Moment {
            places,
            owners,
            turn: whose.and_then(task).zip(task(runs)),
        }
    }

    pub fn place(&self, i: TaskId) -> View {
        self.places[i.index()]
    }

    // Who is at the place, if anybody is.
    pub fn occupant(&self, i: TaskId) -> Option<Occupant> {
        match self.place(i).occupant {
            Occupant::Nobody => None,
            somebody => Some(somebody),
        }
    }

    pub fn owner(&self, m: LockId) -> Option<TaskId> {
        self.owners[m.index()]
    }

    // Whose it is, and who runs in it, if it is somebody's.
    pub fn turn(&self) -> Option<(TaskId, TaskId)> {
        self.turn
    }

    pub fn is_of(&self, i: TaskId) -> bool {
        self.turn.is_some_and(|(whose, _)| whose == i)
    }

    // What kind of task is there.
    pub fn class(&self, i: TaskId) -> Option<Class> {
        Class::of(self.place(i).occupant)
    }
}

fn task(number: u32) -> Option<TaskId> {
    TaskId::try_from(number).ok()
}
