// How `any` chooses: numbers drawn one after the other from a seed, and a step made of them. No choice looks at the state.
ghost use Rattle.std.specs.Prelude.{◌≡◌, ◌<◌};
ghost use Rattle.script.specs.Any.{drawn, below, pick, period, kind, lock, call, step};

use sched::{Call, Kind, Next};

// `as` loses nothing here, since what is drawn is below a bound of 32 bits.

// Ten periods that there are, and two that there aren't.
const PERIODS: [u32; 12] = [4, 5, 6, 7, 8, 9, 10, 12, 20, 60, 3, 11];

#[derive(Drop)]
pub struct Generator {
    state: u64,
}

impl Generator {
    pub fn new(seed: u32) -> Generator
        ensures { result.state ≡ seed }
    {
        Generator {
            state: u64::from(seed),
        }
    }

    // The next call or tick.
    pub fn next_step(&mut self) -> Next
        ensures { drawn result self.new.state ≡ step self.old.state }
    {
        match self.below(64) {
            0..=31 => Next::Tick,
            number => Next::Calls(self.call(number)),
        }
    }

    fn call(&mut self, number: u32) -> Call
        ensures { drawn result self.new.state ≡ call number self.old.state }
    {
        match number {
            0..=33 => Call::Make(self.kind()),
            34..=39 => Call::End(self.below(72)),
            40..=46 => Call::Wake(self.pick(16, 80)),
            47..=48 => Call::Sleep(self.pick(16, 80)),
            49..=51 => Call::Lock(self.below(8), self.lock()),
            _ => Call::Unlock(self.below(8), self.lock()),
        }
    }

    // One of four locks, or none that there is.
    fn lock(&mut self) -> u32
        ensures { drawn result self.new.state ≡ lock self.old.state }
    {
        let m = self.below(5);
        if m == 4 { 64 } else { m }
    }

    fn kind(&mut self) -> Kind
        ensures { drawn result self.new.state ≡ kind self.old.state }
    {
        match self.below(4) {
            0..=1 => {
                let period = self.period();
                let quota = self.below(period / 2 + 1);
                Kind::Reserved(quota, period)
            }
            2 => Kind::Fixed(self.pick(3, 20)),
            _ => Kind::Fair(self.pick(4, 1100)),
        }
    }

    fn period(&mut self) -> u32
        ensures { drawn result self.new.state ≡ period self.old.state }
    {
        PERIODS[self.below(12) as usize]
    }

    // Mostly below often, one time in eight below seldom.
    fn pick(&mut self, often: u32, seldom: u32) -> u32
        requires { (0 < often) × (0 < seldom) }
        ensures { drawn result self.new.state ≡ pick often seldom self.old.state }
    {
        if self.below(8) == 0 {
            self.below(seldom)
        } else {
            self.below(often)
        }
    }

    fn below(&mut self, bound: u32) -> u32
        requires { 0 < bound }
        ensures value { drawn result self.new.state ≡ below bound self.old.state }
        ensures less { result < bound }
    {
        self.state = self
            .state
            .wrapping_mul(6364136223846793005)
            .wrapping_add(1442695040888963407);
        ((self.state >> 33) % u64::from(bound)) as u32
    }
}
