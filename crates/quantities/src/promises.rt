// What a task is promised: a quota of each period, or a weight.
// Fields are told by their names, in the width of the numbers that come in; `as` narrows what was tested.
ghost use Rattle.std.specs.Prelude.{◌≡◌, ◌*◌, ◌/◌, ◌<◌, ◌≤◌, MatchResult};
ghost use Rattle.quantities.specs.Range.{GoodReservation};

use crate::range::OutOfRange;

// How large a part of what is left a fair task has beside others: 1 to 1,024.
#[derive(Clone, Copy, PartialEq, Eq, Debug)]
pub struct Weight {
    value: u16,
    ghost positive: { 1 ≤ value },
    ghost within: { value ≤ 1024 },
}

impl TryFrom<u32> for Weight {
    type Error = OutOfRange;

    ghost try_from_gives = { λ number r. MatchResult r (λ w. (w.value ≡ number) × (1 ≤ number) × (number ≤ 1024)) (λ _. 1 ≤ number → number ≤ 1024 → ⊥) };

    fn try_from(number: u32) -> Result<Self, OutOfRange> {
        if !(1..=1024).contains(&number) {
            return Err(OutOfRange);
        }
        Ok(Weight {
            value: number as u16,
        })
    }
}

impl Weight {
    // The weight of a position that no task has: one part is a whole.
    pub fn one() -> Self
        ensures { result.value ≡ 1 }
    {
        Weight { value: 1 }
    }

    // Named as the library's own numbers with a range have it.
    pub fn get(self) -> u32
        ensures value { result ≡ self.value }
        ensures positive { 1 ≤ result }
        ensures bound { result ≤ 1024 }
    {
        u32::from(self.value)
    }
}

// A part of the processor, in 10,080ths.
#[derive(Clone, Copy, PartialEq, Eq, Debug)]
pub struct Share {
    parts: u16,
    ghost within: { parts ≤ 10080 },
}

impl Share {
    pub fn parts(self) -> u32
        ensures value { result ≡ self.parts }
        ensures bound { result ≤ 10080 }
    {
        u32::from(self.parts)
    }
}

// So many ticks, the quota, of every so many, the period: the period is at least 4 and divides 10,080.
#[derive(Clone, Copy, PartialEq, Eq, Debug)]
pub struct Reservation {
    quota: u16,
    period: u16,
    ghost good: { GoodReservation quota period },
}

impl Reservation {
    pub fn new(quota: u32, period: u32) -> Result<Self, OutOfRange>
        ensures { MatchResult result (λ s. (s.quota ≡ quota) × (s.period ≡ period) × GoodReservation quota period) (λ _. GoodReservation quota period → ⊥) }
    {
        if !(4..=10_080).contains(&period)
            || 10_080 % period != 0
            || !(1..=period).contains(&quota)
        {
            return Err(OutOfRange);
        }
        Ok(Reservation {
            quota: quota as u16,
            period: period as u16,
        })
    }

    pub fn quota(self) -> u32
        ensures value { result ≡ self.quota }
        ensures positive { 1 ≤ result }
        ensures bound { result ≤ self.period }
    {
        u32::from(self.quota)
    }

    pub fn period(self) -> u32
        ensures value { result ≡ self.period }
        ensures low_bound { 4 ≤ result }
        ensures bound { result ≤ 10080 }
    {
        u32::from(self.period)
    }

    // The quota as a part of the processor, exact since the period divides 10,080.
    pub fn share(self) -> Share
        ensures { result.parts ≡ self.quota * (10080 / self.period) }
    {
        Share {
            parts: self.quota * (10_080 / self.period),
        }
    }
}
