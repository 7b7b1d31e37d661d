// Why a call is turned away, and what callers are told of its result.
ghost use Rattle.std.specs.Prelude.{◌≡◌};
ghost use Rattle.sched.specs.Called.{answer_of, done, id_of};
ghost use Rattle.sched.specs.Refusals.{refused_by};
ghost use Rattle.sched.specs.declared.refusal.Refusal.TheVariants.{BadNumber};

use crate::Answer;
use quantities::ids::TaskId;
use quantities::range::OutOfRange;

#[derive(Clone, Copy, PartialEq, Eq, Debug)]
pub enum Refusal {
    // no such period, quota, rank or weight; or no such lock
    BadNumber = 1,
    // no place is free
    NoPlace = 2,
    // shares and kept shares would come to more than three quarters
    NoShare = 3,
    // no such task
    NoTask = 4,
    // who owns the lock waits, by way of any others, for the caller, or is the caller
    Ring = 5,
    // it owns a lock
    OwnsLock = 6,
    // it doesn't own that lock
    NotOwner = 8,
    // it waits for a lock, or is asleep where it has to be awake
    Waits = 9,
}

impl From<OutOfRange> for Refusal {
    ghost from_gives = { λ _ e. e ≡ BadNumber };

    fn from(_: OutOfRange) -> Refusal {
        Refusal::BadNumber
    }
}

impl From<Refusal> for Answer {
    ghost from_gives = { λ e a. a ≡ refused_by e };

    fn from(refusal: Refusal) -> Answer {
        // `as` gives the numbers that stand above.
        Answer::No(refusal as u32)
    }
}

impl From<Result<(), Refusal>> for Answer {
    ghost from_gives = { λ r a. a ≡ answer_of done r };

    fn from(outcome: Result<(), Refusal>) -> Answer {
        match outcome {
            Ok(()) => Answer::Done,
            Err(refusal) => refusal.into(),
        }
    }
}

impl From<Result<TaskId, Refusal>> for Answer {
    ghost from_gives = { λ r a. a ≡ answer_of id_of r };

    fn from(outcome: Result<TaskId, Refusal>) -> Answer {
        match outcome {
            Ok(i) => Answer::Id(i.into()),
            Err(refusal) => refusal.into(),
        }
    }
}
