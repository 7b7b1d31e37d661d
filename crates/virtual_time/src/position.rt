// A position in virtual time: wholes, and parts of a weight. A tick takes a task one part on,
// so the heavier of two tasks takes more ticks to a whole.
use quantities::promises::Weight;

mod entry;
mod order;
mod parts;

ghost use Rattle.std.specs.Prelude.{◌≡◌, ◌<◌};
ghost use Rattle.virtual_time.specs.Positions.{capped, ticked_far, ticked_rest, lowered_far, lowered_rest};

// Parts are less than the weight, so `as u16` loses nothing: a conversion would test what the proof knows.
#[derive(Clone, Copy, PartialEq, Eq, Debug)]
pub struct Position {
    whole: u32,
    rest: u16,
    weight: Weight,
    ghost proper: { rest < weight.value },
}

impl Position {
    // Where the time of that weight begins. A mark that no task has set yet is the start of weight one.
    pub fn start(weight: Weight) -> Self
        ensures whole { result.whole ≡ 0 }
        ensures rest { result.rest ≡ 0 }
        ensures weight { result.weight ≡ weight }
    {
        Position {
            whole: 0,
            rest: 0,
            weight,
        }
    }

    // One part on.
    pub fn advance(self) -> Self
        ensures whole { result.whole ≡ capped (ticked_far self.whole self.rest self.weight.value) }
        ensures rest { result.rest ≡ ticked_rest self.rest self.weight.value }
        ensures weight { result.weight ≡ self.weight }
    {
        let next = u32::from(self.rest) + 1;
        if next == self.weight.get() {
            Position {
                whole: self.whole.saturating_add(1),
                rest: 0,
                weight: self.weight,
            }
        } else {
            Position {
                whole: self.whole,
                rest: next as u16,
                weight: self.weight,
            }
        }
    }

    // So many wholes back; whoever has not come so far stands at the start.
    pub fn lowered(self, by: u32) -> Self
        ensures whole { result.whole ≡ lowered_far self.whole by }
        ensures rest { result.rest ≡ lowered_rest self.whole self.rest by }
        ensures weight { result.weight ≡ self.weight }
    {
        if self.whole < by {
            return Position::start(self.weight);
        }
        Position {
            whole: self.whole - by,
            rest: self.rest,
            weight: self.weight,
        }
    }
}
