// Reserved tasks: a window each, of which the quota is had in time.
// Contracts speak of each house that they stand for: windows have no model, as a scheduler has none.
ghost use Rattle.std.specs.Prelude.{◌≡◌, ℕ, ◌+◌, true, false, MatchOption, slice_index_or, slice_set};
ghost use Rattle.sched.specs.House.{House, Place, empty, put, leaves, windowed, passed, freed, ticked, due};
ghost use Rattle.sched.specs.House.{Window as RulesWindow};
ghost use Rattle.sched.specs.Stores.{Reads, shut, place_of, window_of, owner_of};
ghost use Rattle.sched.specs.Midtick.{SlotsOf, WantsOf, WindowsOf, SoonestDue, BestBelow, sooner_than};
ghost use Rattle.sched.specs.declared.tasks.Slot.TheVariants as slot_is;

use crate::class::Class;
use crate::tasks::{Slot, Tasks};
use crate::wants::Wants;
use quantities::ids::TaskId;
use windows::Window;

#[derive(Drop)]
pub struct Reserved {
    windows: [Window; 64],
}

impl Reserved {
    pub fn new() -> Reserved
        ensures { Reads window_of shut result.windows empty.window }
    {
        Reserved {
            windows: [Window { span: None }; 64],
        }
    }

    // A new task has no window yet.
    pub fn made(&mut self, i: TaskId)
        ensures { self.new.windows ≡ slice_set self.old.windows i.index shut }
    {
        self.windows[i.index()] = Window { span: None };
    }

    pub fn window(&self, i: TaskId) -> Window
        ensures { result ≡ slice_index_or self.now.windows i.index shut }
    {
        self.windows[i.index()]
    }

    // What a task leaves at its place when it ends: its share, while a window is open. Were the share free at once, it
    // could be made again and had twice in one window.
    pub fn leaves(&self, i: TaskId, slot: Slot) -> Slot
        ensures { place_of result ≡ leaves (window_of (slice_index_or self.now.windows i.index shut)) (place_of slot) }
    {
        if !self.window(i).is_open() {
            return Slot::Free;
        }
        slot.reservation().map_or(Slot::Free, Slot::Kept)
    }

    // Windows open that have to, and stop being whole where the task doesn't want the tick.
    pub fn begin(&mut self, tasks: &Tasks, wants: &Wants)
        ensures { (h : House) → SlotsOf tasks.now h → WantsOf wants.now h → WindowsOf self.old h → WindowsOf self.new (windowed h) }
    {
        for i in TaskId::all() {
            self.windows[i.index()] = self.begun(tasks, wants, i);
        }
    }

    // The window with which a tick begins.
    fn begun(&self, tasks: &Tasks, wants: &Wants, i: TaskId) -> Window
        ensures { (h : House) → SlotsOf tasks.now h → WantsOf wants.now h → window_of (slice_index_or self.now.windows i.index shut) ≡ h.window i.index → window_of result ≡ (windowed h).window i.index }
    {
        match tasks.slot(i).reservation() {
            Some(reservation) => self.window(i).begin(wants.of(i), reservation),
            None => self.window(i).begin_kept(),
        }
    }

    // The tick passes: windows have one tick less to go, and a kept place is free when its window is over.
    pub fn pass(&mut self, tasks: &mut Tasks, whose: Option<TaskId>)
        ensures windows { (h : House) → WindowsOf self.old h → WindowsOf self.new (ticked h (owner_of whose)) }
        ensures places { (h : House) → WindowsOf self.old h → SlotsOf tasks.old h → SlotsOf tasks.new (ticked h (owner_of whose)) }
        ensures awake { tasks.new.awake ≡ tasks.old.awake }
    {
        for i in TaskId::all() {
            self.pass_at(tasks, i, whose == Some(i));
        }
    }

    fn pass_at(&mut self, tasks: &mut Tasks, i: TaskId, mine: bool)
        ensures windows { (w : ℕ → RulesWindow) → Reads window_of shut self.old.windows w → Reads window_of shut self.new.windows (put i.index (passed mine (w i.index)) w) }
        ensures places { (w : ℕ → RulesWindow) (p : ℕ → Place) → Reads window_of shut self.old.windows w → Reads place_of slot_is.Free tasks.old.slots p → Reads place_of slot_is.Free tasks.new.slots (put i.index (freed (passed mine (w i.index)) (p i.index)) p) }
        ensures awake { tasks.new.awake ≡ tasks.old.awake }
    {
        let window = self.window(i).pass(mine);
        if !window.is_open() {
            tasks.release(i);
        }
        self.windows[i.index()] = window;
    }

    // It wants the tick and hasn't had its quota.
    fn is_due(&self, tasks: &Tasks, wants: &Wants, i: TaskId) -> bool
        ensures { (h : House) → SlotsOf tasks.now h → WantsOf wants.now h → WindowsOf self.now h → result ≡ due h i.index }
    {
        tasks.slot(i).reservation().is_some_and(|reservation| wants.of(i)
            && self.window(i).got() < reservation.quota())
    }

    fn goes_before(&self, i: TaskId, other: Option<TaskId>) -> bool
        ensures { (w : ℕ → RulesWindow) → Reads window_of shut self.now.windows w → MatchOption other (result ≡ true) (λ j. result ≡ sooner_than (w i.index) (w j.index)) }
    {
        other.is_none_or(|j| self.window(i).goes_before(self.window(j)))
    }

    // The better of the best so far and i.
    fn better(
        &self,
        tasks: &Tasks,
        wants: &Wants,
        best: Option<TaskId>,
        i: TaskId,
    ) -> Option<TaskId>
        ensures { (h : House) → SlotsOf tasks.now h → WantsOf wants.now h → WindowsOf self.now h → BestBelow i.index h best → BestBelow (i.index + 1) h result }
    {
        if self.is_due(tasks, wants, i) && self.goes_before(i, best) {
            return Some(i);
        }
        best
    }
}

impl Class for Reserved {
    ghost stands = { WindowsOf };

    ghost asks = { due };

    ghost owed = { SoonestDue };

    // Of the due ones first those whose windows are whole, the earliest end first, then the others; of equals the lowest place.
    fn candidate(&self, tasks: &Tasks, wants: &Wants) -> Option<TaskId> {
        let mut best: Option<TaskId> = None;
        for i in TaskId::all() {
            best = self.better(tasks, wants, best, i);
        }
        best
    }
}
