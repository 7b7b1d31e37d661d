// Which of two positions is behind: parts of different weights compare by their products.
ghost use Rattle.std.specs.Prelude.{◌≡◌};
ghost use Rattle.virtual_time.specs.Positions.{less_far};

use super::Position;

// No PartialOrd: it would ask for an equality by which a half and two quarters are the same position.
impl Position {
    pub fn is_behind(self, other: Position) -> bool
        ensures { result ≡ less_far self.whole self.rest self.weight.value other.whole other.rest other.weight.value }
    {
        if self.whole != other.whole {
            return self.whole < other.whole;
        }
        u32::from(self.rest) * other.weight.get() < u32::from(other.rest) * self.weight.get()
    }
}
