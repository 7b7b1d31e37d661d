// Fair tasks: each is so far, in parts of its weight, and the least far that wants the tick has it.
ghost use Rattle.std.specs.Prelude.{◌≡◌, ℕ, suc, ◌+◌, ◌<◌, true, false, MatchOption};
ghost use Rattle.sched.specs.House.{House, some', empty, weight_of, fair_wants, opened, nearer, least_far, ticked};
ghost use Rattle.sched.specs.Promise.{Comes};
ghost use Rattle.sched.specs.Stores.{Reads, place_of, task_place, owner_of, StandsBeyond, FairlyOf, made_at};
ghost use Rattle.sched.specs.Begun.{Wanting, StandsAt, Begins, Begun, LeastHas, Passing};
ghost use Rattle.sched.specs.declared.tasks.Slot.TheVariants as slot;

use crate::class::Class;
use crate::promise::Promise;
use crate::tasks::Tasks;
use crate::wants::Wants;
use quantities::ids::TaskId;
use quantities::promises::Weight;
use virtual_time::position::Position;

// Positions are taken down when the mark has come so far, so that they stay small for ever.
const FAR: u32 = 1024;

#[derive(Drop)]
pub struct Fair {
    // Two arrays and not one of pairs: the rules have the two apart, and each stands for one of their functions.
    positions: [Position; 64],
    // a fair task that wanted the last tick
    wanted: [bool; 64],
    // how far the least far of those that wanted was, as far as that ever came
    mark: Position,
    // the least far of those that want this tick
    least: Option<TaskId>,
}

impl Fair {
    pub fn new() -> Fair
        ensures { FairlyOf result empty }
    {
        let start = Position::start(Weight::one());
        Fair {
            positions: [start; 64],
            wanted: [false; 64],
            mark: start,
            least: None,
        }
    }

    // A new task at a place has nothing from whoever was there before.
    pub fn made(&mut self, i: TaskId, promise: Promise)
        ensures { (h : House) → FairlyOf self.old h → FairlyOf self.new (made_at i.index promise h) }
    {
        self.positions[i.index()] = self.beginning(promise);
        self.wanted[i.index()] = false;
    }

    // Who comes back is brought to the mark; then the mark moves up to the least far that wants the tick.
    pub fn begin(&mut self, tasks: &Tasks, wants: &Wants)
        ensures { (h : House) → Comes h → Reads place_of slot.Free tasks.now.slots h.place → Wanting wants.now.flags h → FairlyOf self.old h → Begun self.new h }
    {
        self.least = None;
        for i in TaskId::all() {
            self.ask(i, tasks.slot(i).is_fair() && wants.of(i));
        }
        self.raise_mark();
    }

    // The tick passes: a fair task whose it was goes one part on.
    pub fn pass(&mut self, tasks: &Tasks, whose: Option<TaskId>)
        ensures { (h : House) → Comes h → Reads place_of slot.Free tasks.now.slots h.place → LeastHas h whose → Begun self.old h → FairlyOf self.new (ticked (opened h) (owner_of whose)) }
    {
        if let Some(i) = whose {
            if tasks.slot(i).is_fair() {
                self.go_on(i);
            }
        }
        self.keep_low();
    }

    // A new fair task begins one part beyond the mark.
    fn beginning(&self, promise: Promise) -> Position
        ensures { (base w : ℕ) → weight_of (task_place promise) ≡ w → 0 < w → self.now.mark.whole < 1024 → StandsBeyond base w self.now.mark result }
    {
        match promise {
            Promise::Reserved(_) | Promise::Fixed(_) => Position::start(Weight::one()),
            Promise::Fair(weight) => self.mark.beyond(weight),
        }
    }

    // One place, at which a fair task wants the tick or none does.
    fn ask(&mut self, i: TaskId, asks: bool)
        ensures { (base : ℕ) (h : House) → Comes h → asks ≡ fair_wants (opened h) i.index → Begins base i.index self.old h → Begins base (i.index + 1) self.new h }
    {
        if asks {
            self.join(i);
        } else {
            self.wanted[i.index()] = false;
        }
    }

    // A fair task wants the tick.
    fn join(&mut self, i: TaskId)
        ensures { (base : ℕ) (h : House) → Comes h → fair_wants (opened h) i.index ≡ true → Begins base i.index self.old h → Begins base (i.index + 1) self.new h }
    {
        let position = self.joined(i);
        if self.is_nearer(position) {
            self.least = Some(i);
        }
        self.positions[i.index()] = position;
        self.wanted[i.index()] = true;
    }

    // One that didn't want the last tick and is behind the mark is brought to it: who rests keeps nothing for later.
    fn joined(&self, i: TaskId) -> Position
        ensures { (base : ℕ) (h : House) → Comes h → fair_wants (opened h) i.index ≡ true → Begins base i.index self.now h → StandsAt base i.index h result }
    {
        let position = self.positions[i.index()];
        if !self.wanted[i.index()] && position.is_behind(self.mark) {
            return self.mark.ceiling(position.weight());
        }
        position
    }

    // Whether a position is behind that of the least far so far.
    fn is_nearer(&self, position: Position) -> bool
        ensures { (base i : ℕ) (h : House) → StandsAt base i h position → Begins base i self.now h → MatchOption self.now.least (result ≡ true) (λ j. result ≡ nearer (opened h) i j.index) }
    {
        // No `is_none_or`: what a closure indexes isn't known to be the position, and the proof didn't close.
        match self.least {
            Some(j) => position.is_behind(self.positions[j.index()]),
            None => true,
        }
    }

    // The mark moves up to the least far that wants, and never back.
    fn raise_mark(&mut self)
        ensures { (base : ℕ) (h : House) → Comes h → Begins base 64 self.old h → Begun self.new h }
    {
        if let Some(i) = self.least {
            let position = self.positions[i.index()];
            if self.mark.is_behind(position) {
                self.mark = position;
            }
        }
    }

    // The tick was a fair task's: one part on.
    fn go_on(&mut self, i: TaskId)
        ensures { (h : House) → Comes h → least_far (opened h) i.index ≡ true → Begun self.old h → Passing self.new (ticked (opened h) (suc i.index)) }
    {
        let position = self.positions[i.index()];
        self.positions[i.index()] = position.advance();
    }

    // Only distances to the mark matter, so the same whole number is taken off all.
    fn keep_low(&mut self)
        ensures { (h : House) → Passing self.old h → FairlyOf self.new h }
    {
        let by = self.mark.whole();
        if by < FAR {
            return;
        }
        for position in &mut self.positions {
            *position = position.lowered(by);
        }
        self.mark = self.mark.lowered(by);
    }
}

impl Class for Fair {
    ghost stands = { λ f h. MatchOption f.least (some' 64 (fair_wants h) ≡ false) (λ i. least_far h i.index ≡ true) };

    ghost asks = { fair_wants };

    ghost owed = { λ h i. least_far h i ≡ true };

    fn candidate(&self, _tasks: &Tasks, _wants: &Wants) -> Option<TaskId> {
        self.least
    }
}
