// A tick in three parts: it begins, it is given, it passes.
ghost use Rattle.sched.specs.House.{House, opened, ticked};
ghost use Rattle.sched.specs.Stores.{Stores, Holds, owner_of};
ghost use Rattle.sched.specs.Midtick.{WantsOf, Midtick, Chosen};

use crate::Scheduler;
use crate::class::Class;
use crate::wants::Wants;
use quantities::ids::TaskId;

impl Scheduler {
    // Windows open, fair tasks come back, the mark moves.
    pub(crate) fn begin(&mut self, wants: &Wants)
        ensures { (h : House) → Holds self.old h → WantsOf wants.now h → Midtick self.new h }
    {
        self.reserved.begin(&self.tasks, wants);
        self.fair.begin(&self.tasks, wants);
    }

    // The kinds in their order: the first that has a candidate has the tick. No `or_else`: a further kind is a further test.
    pub(crate) fn choose(&self, wants: &Wants) -> Option<TaskId>
        ensures { (h : House) → Midtick self.now h → WantsOf wants.now h → Chosen h result }
    {
        if let Some(i) = self.reserved.candidate(&self.tasks, wants) {
            return Some(i);
        }
        if let Some(i) = self.fixed.candidate(&self.tasks, wants) {
            return Some(i);
        }
        self.fair.candidate(&self.tasks, wants)
    }

    // Windows have a tick less to go, kept places become free, the turn and the position move.
    pub(crate) fn pass(&mut self, whose: Option<TaskId>)
        ensures { (h : House) → Midtick self.old h → Chosen h whose → Stores self.new (ticked (opened h) (owner_of whose)) }
    {
        self.fixed.pass(whose);
        self.fair.pass(&self.tasks, whose);
        self.reserved.pass(&mut self.tasks, whose);
    }
}
