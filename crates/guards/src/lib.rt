// Code that holds locks by guards, and what it learns from their drops.
// A bool says whether it came to that; the pair of a tick is as `hours` hands it on.
#![tactic(auto)]

ghost use Rattle.std.specs.Prelude.{◌≡◌, true, IfSome};
ghost use Rattle.sched.specs.House.{House};
ghost use Rattle.sched.specs.Stores.{Holds};
ghost use Rattle.guards.specs.Sections.{to_be_had, Both, HandedOn, OverTick};

use quantities::ids::{LockId, TaskId};
use sched::guard::Guard;
use sched::{Answer, Call, Scheduler};

// The task takes locks 5 and 6, one within the other, and gives them back. False if one of them isn't to be had at once.
pub fn both(scheduler: &mut Scheduler, i: TaskId) -> bool
    ensures value { (h : House) → Holds scheduler.old h → result ≡ to_be_had h i.index }
    ensures given { result ≡ true → (h : House) → Holds scheduler.old h → Both h i.index scheduler.new }
{
    let five = LockId::try_from(5).unwrap();
    let six = LockId::try_from(6).unwrap();
    let mut guard = Guard::new(scheduler, i);
    if !guard.lock(five) {
        return false;
    }
    guard.lock(six)
}

// j comes to wait for lock 5 while i holds it, and has it when i's guard is dropped. False if it doesn't come to that.
pub fn hands_on(scheduler: &mut Scheduler, i: TaskId, j: TaskId) -> bool
    ensures { result ≡ true → (h : House) → Holds scheduler.old h → HandedOn h i.index j.index scheduler.new }
{
    let five = LockId::try_from(5).unwrap();
    let mut guard = Guard::new(scheduler, i);
    if !guard.lock(five) {
        return false;
    }
    let Some(told) = guard.call(Call::Lock(j.into(), 5)) else {
        return false;
    };
    is_done(told)
}

fn is_done(told: Answer) -> bool
    ensures done { result ≡ true → told ≡ Answer.Done }
    ensures all { told ≡ Answer.Done → result ≡ true }
{
    matches!(told, Answer::Done)
}

// The task gives back 6 and holds 5 over a tick: whose it is, and who runs in it. None if one of them isn't to be had at once.
pub fn over_a_tick(scheduler: &mut Scheduler, i: TaskId) -> Option<(Option<u32>, u32)>
    ensures { IfSome result (λ p. (h : House) → Holds scheduler.old h → OverTick h i.index p.0 p.1 scheduler.new) }
{
    let outer = LockId::try_from(5).unwrap();
    let inner = LockId::try_from(6).unwrap();
    let mut held = Guard::new(scheduler, i);
    if !held.lock(outer) || !held.lock(inner) {
        return None;
    }
    held.unlock()?;
    Some(held.pick())
}
