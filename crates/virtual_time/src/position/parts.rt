// What a position is made of.
ghost use Rattle.std.specs.Prelude.{◌≡◌, ◌<◌};

use super::Position;
use quantities::promises::Weight;

impl Position {
    pub fn whole(self) -> u32
        ensures { result ≡ self.whole }
    {
        self.whole
    }

    pub fn rest(self) -> u32
        ensures value { result ≡ self.rest }
        ensures bound { result < self.weight.value }
    {
        u32::from(self.rest)
    }

    pub fn weight(self) -> Weight
        ensures { result ≡ self.weight }
    {
        self.weight
    }
}
