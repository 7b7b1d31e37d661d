// Whoever calls and runs, the scheduler, and the hours between them.
#![tactic(auto)]

ghost use Rattle.std.specs.Prelude.{◌≡◌, ℕ, suc, ◌+◌, ◌<◌, ◌≤◌, true, false, T};
ghost use Rattle.sched.specs.House.{House, empty, calls, runner, may_run, after, number_of, goes_on'};
ghost use Rattle.sched.specs.Promise.{NoRings, SharesFit, RowsStand, NearEachOther};
ghost use Rattle.sched.specs.Windows.{WindowsWellFormed};
ghost use Rattle.sched.specs.Policy.{QuotasHad};
ghost use Rattle.sched.specs.Refusals.{is_no};
ghost use Rattle.sched.specs.Stores.{Holds, Locked, owner_of};

mod calls;
mod class;
mod fair;
mod fixed;
pub mod guard;
mod locks;
mod promise;
mod refusal;
mod reserved;
mod tasks;
mod tick;
pub mod view;
mod wants;

use fair::Fair;
use fixed::Fixed;
use locks::Locks;
use quantities::ids::TaskId;
use reserved::Reserved;
use tasks::Tasks;
use wants::Wants;

// The text of these four enums and of the trait is fixed: hence numbers where other code has ids, and a refusal by number.

// Reserved: so many ticks of so many. Fixed: rank 0 goes first. Fair: by weight.
#[derive(Clone, Copy)]
pub enum Kind {
    Reserved(u32, u32),
    Fixed(u32),
    Fair(u32),
}

// Tasks and locks are 0 to 63.
#[derive(Clone, Copy)]
pub enum Call {
    Make(Kind),
    End(u32),
    Wake(u32),
    Sleep(u32),
    Lock(u32, u32),
    Unlock(u32, u32),
}

#[derive(Clone, Copy)]
pub enum Answer {
    Done,
    Id(u32),
    No(u32),
}

#[derive(Clone, Copy)]
pub enum Next {
    Calls(Call),
    Tick,
    Over,
}

// The processor and all who run on it. What is told is what the call comes to; whose a tick is, it may be: that is the promise.
pub trait World {
    ghost house: { Self → House };
    // how much may still come: whoever keeps the house in finite memory says so
    ghost left: { Self → ℕ };

    fn next(&mut self) -> Next
        ensures { (house self.new ≡ house self.old) × ((T (goes_on' result) → 0 < left self.new)) };

    fn told(&mut self, c: Call, a: Answer)
        requires { (0 < left self.old) × (a ≡ (calls c (house self.old)).answer) }
        ensures { (house self.new ≡ (calls c (house self.old)).house) × (left self.new + 1 ≡ left self.old) };
    // the tick is whose's, or nobody's, and runs runs in it
    fn runs(&mut self, whose: Option<u32>, runs: u32)
        requires { (0 < left self.old) × (T (may_run (house self.old) whose runs)) }
        ensures { (house self.new ≡ after (house self.old) whose) × (left self.new + 1 ≡ left self.old) };
}

// What the scheduler knows: who is there and awake, the locks, and what each kind of promise keeps of its own.
// It has no model: a house is made of functions, which no model's value may be, and a scheduler stands for more than one, since
// positions are kept less a base. So contracts speak of each house that it stands for.
#[derive(Drop)]
pub struct Scheduler {
    tasks: Tasks,
    locks: Locks,
    reserved: Reserved,
    fixed: Fixed,
    fair: Fair,
}

impl Scheduler {
    // No task, no lock held.
    pub fn new() -> Scheduler
        ensures { Holds result empty }
    {
        Scheduler {
            tasks: Tasks::new(),
            locks: Locks::new(),
            reserved: Reserved::new(),
            fixed: Fixed::new(),
            fair: Fair::new(),
        }
    }

    // A call, and its answer: the rules' own, with the house as they leave it. Turned away, a call changes nothing.
    pub fn call(&mut self, c: Call) -> Answer
        ensures answered { (h : House) → Holds self.old h → (result ≡ (calls c h).answer) × Holds self.new (calls c h).house }
        ensures refused { is_no result ≡ true → self.new ≡ self.old }
    {
        match c {
            Call::Make(kind) => self.make(kind).into(),
            Call::End(i) => self.end(i).into(),
            Call::Wake(i) => self.wake(i).into(),
            Call::Sleep(i) => self.sleep(i).into(),
            Call::Lock(i, m) => self.lock(i, m).into(),
            Call::Unlock(i, m) => self.unlock(i, m).into(),
        }
    }

    // Whose the next tick is, and who runs in it. The pair is what `hours` hands on, whose text is fixed.
    pub fn pick(&mut self) -> (Option<u32>, u32)
        ensures { (h : House) → Holds self.old h → T (may_run h result.0 result.1) × Holds self.new (after h result.0) }
    {
        let wants = Wants::now(&self.tasks, &self.locks);
        self.begin(&wants);
        let whose = self.choose(&wants);
        self.pass(whose);
        self.named(whose)
    }

    // By their numbers, as `pick` hands them on: whose the tick is, and its runner.
    fn named(&self, whose: Option<TaskId>) -> (Option<u32>, u32)
        ensures number { number_of result.0 ≡ owner_of whose }
        ensures runs { (h : House) (i : ℕ) → Locked self.now.locks h → owner_of whose ≡ suc i → result.1 ≡ runner 64 h i }
    {
        let runs = whose.map_or(0, |i| self.locks.runner(i).into());
        (whose.map(u32::from), runs)
    }
}

pub fn scheduler_is_small() -> bool
    ensures { T result }
{
    std::mem::size_of::<Scheduler>() <= 65536
}

// THE MAIN PROMISE. Whatever is called, tick after tick. Its text is fixed, and the loop with it.
pub fn hours<W: World>(w: &mut W, many: u64)
    requires begins { W.house w.old ≡ empty }
{
    let mut s = Scheduler::new();
    let mut n: u64 = 0;
    while n < many {
        n += 1;
        match w.next() {
            Next::Calls(c) => {
                let a = s.call(c);
                w.told(c, a);
            }
            Next::Tick => {
                let (t, j) = s.pick();
                w.runs(t, j);
            }
            Next::Over => {
                return;
            }
        }
    }
}

// What is promised beside, each a theorem that a contract names.
pub fn no_rings() -> u8
    ensures { NoRings }
{
    0
}

pub fn shares_fit() -> u8
    ensures { (SharesFit) × (RowsStand) }
{
    0
}

pub fn near_each_other() -> u8
    ensures { NearEachOther }
{
    0
}

// Windows are open only for a reservation or a kept share, within its period and its quota.
pub fn windows_well_formed() -> u8
    ensures { WindowsWellFormed }
{
    0
}

// Whole windows first, the earliest end first: then every window that was whole to its end has had its quota.
pub fn quotas_had() -> u8
    ensures { QuotasHad }
{
    0
}
