// What a task was promised, with its numbers known to be good.
ghost use Rattle.std.specs.Prelude.{◌≡◌, ◌≤◌, true, false, MatchOption, MatchResult};
ghost use Rattle.sched.specs.House.{good, share_of_kind, is_reserved};
ghost use Rattle.sched.specs.Stores.{kind_of, task_place, reserved_place};

use crate::Kind;
use quantities::ids::Rank;
use quantities::promises::{Reservation, Weight};
use quantities::range::OutOfRange;

#[derive(Clone, Copy)]
pub enum Promise {
    Reserved(Reservation),
    Fixed(Rank),
    Fair(Weight),
}

// The promise of this kind, if its numbers are good.
impl TryFrom<Kind> for Promise {
    type Error = OutOfRange;

    ghost try_from_gives = { λ kind r. MatchResult r (λ p. (kind_of p ≡ kind) × (good kind ≡ true)) (λ _. good kind ≡ false) };

    fn try_from(kind: Kind) -> Result<Promise, OutOfRange> {
        Ok(match kind {
            Kind::Reserved(quota, period) => Promise::Reserved(Reservation::new(quota, period)?),
            Kind::Fixed(number) => Promise::Fixed(Rank::try_from(number)?),
            Kind::Fair(number) => Promise::Fair(Weight::try_from(number)?),
        })
    }
}

impl Promise {
    #[tactic(auto, unfolding(crate::specs::Stores::kind_of, crate::specs::House::is_reserved))]
    pub fn reservation(self) -> Option<Reservation>
        ensures { MatchOption result (is_reserved (task_place self) ≡ false) (λ x. task_place self ≡ reserved_place x.quota x.period) }
    {
        match self {
            Promise::Reserved(reservation) => Some(reservation),
            Promise::Fixed(_) | Promise::Fair(_) => None,
        }
    }

    // Its part of the processor, in 10,080ths; only a reservation has one.
    #[tactic(auto, unfolding(crate::specs::Stores::kind_of, crate::specs::House::share_of_kind))]
    pub fn share(self) -> u32
        ensures value { result ≡ share_of_kind (kind_of self) }
        ensures bound { result ≤ 10080 }
    {
        match self {
            Promise::Reserved(reservation) => reservation.share().parts(),
            Promise::Fixed(_) | Promise::Fair(_) => 0,
        }
    }
}

// The kind of task that it was made to.
impl From<Promise> for Kind {
    ghost from_gives = { λ p k. k ≡ kind_of p };

    #[tactic(auto, unfolding(crate::specs::Stores::kind_of))]
    fn from(promise: Promise) -> Kind {
        match promise {
            Promise::Reserved(reservation) => {
                Kind::Reserved(reservation.quota(), reservation.period())
            }
            Promise::Fixed(rank) => Kind::Fixed(rank.into()),
            Promise::Fair(weight) => Kind::Fair(weight.get()),
        }
    }
}
