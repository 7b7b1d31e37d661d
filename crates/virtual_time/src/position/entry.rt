// Where a task enters beside a position of another weight. Its parts round up, so that nobody gains by entering.
// A rest is less than the weight, so that `as` loses nothing.
ghost use Rattle.std.specs.Prelude.{◌≡◌, ◌≤◌};
ghost use Rattle.virtual_time.specs.Positions.{capped, up_rest, joined_far, joined_rest, made_far, made_rest};

use super::Position;
use quantities::promises::Weight;

impl Position {
    // At this position or just beyond, in parts of `weight`.
    pub fn ceiling(self, weight: Weight) -> Self
        ensures whole { result.whole ≡ capped (joined_far self.whole self.rest self.weight.value weight.value) }
        ensures rest { result.rest ≡ joined_rest self.rest self.weight.value weight.value }
        ensures weight { result.weight ≡ weight }
    {
        let parts = self.parts_up(weight);
        if parts < weight.get() {
            Position {
                whole: self.whole,
                rest: parts as u16,
                weight,
            }
        } else {
            Position {
                whole: self.whole.saturating_add(1),
                rest: 0,
                weight,
            }
        }
    }

    // One part of `weight` beyond this position, rounded up.
    pub fn beyond(self, weight: Weight) -> Self
        ensures whole { result.whole ≡ capped (made_far self.whole self.rest self.weight.value weight.value) }
        ensures rest { result.rest ≡ made_rest self.rest self.weight.value weight.value }
        ensures weight { result.weight ≡ weight }
    {
        let parts = self.parts_up(weight) + 1;
        Position {
            whole: self.whole.saturating_add(parts / weight.get()),
            rest: (parts % weight.get()) as u16,
            weight,
        }
    }

    // The rest in parts of `weight`, rounded up.
    fn parts_up(self, weight: Weight) -> u32
        ensures value { result ≡ up_rest self.rest self.weight.value weight.value }
        ensures bound { result ≤ weight.value }
    {
        let own = self.weight.get();
        (u32::from(self.rest) * weight.get() + (own - 1)) / own
    }
}
