// The first look at an evening: how much of everything there was.
use crate::moment::Moment;
use crate::naming::Many;
use crate::session::Viewer;
use layout::MOST_TICKS;
use sched::{Answer, Call};
use std::fmt;

#[derive(Clone, Copy, Default)]
pub struct Tally {
    pub ticks: u64,
    pub idle: u64,
    pub made: u64,
    pub refused: u64,
}

impl Tally {
    // How many of the ticks are drawn.
    pub fn drawn(self) -> u32 {
        u32::try_from(self.ticks).map_or(MOST_TICKS, |ticks| ticks.min(MOST_TICKS))
    }
}

// In a sentence or two, without the number of ticks.
impl fmt::Display for Tally {
    fn fmt<W: fmt::Write>(&self, f: &mut fmt::Formatter<W>) -> fmt::Result {
        let made = Many {
            n: self.made,
            one: "task was made",
            more: "tasks were made",
        };
        let refused = Many {
            n: self.refused,
            one: "call was turned away",
            more: "calls were turned away",
        };
        let idle = Many {
            n: self.idle,
            one: "tick was nobody's",
            more: "ticks were nobody's",
        };
        write!(f, "{made}; {refused}; {idle}.")?;
        let drawn = self.drawn();
        if u64::from(drawn) < self.ticks {
            write!(f, " Only the first {drawn} ticks are drawn.")?;
        }
        Ok(())
    }
}

impl Viewer for Tally {
    fn is_done(&self) -> bool {
        false
    }

    fn answered(&mut self, _call: Call, answer: Answer) {
        match answer {
            Answer::Done => {}
            Answer::Id(_) => self.made = self.made.saturating_add(1),
            Answer::No(_) => self.refused = self.refused.saturating_add(1),
        }
    }

    fn tick(&mut self, moment: &Moment) {
        self.ticks = self.ticks.saturating_add(1);
        if moment.turn().is_none() {
            self.idle = self.idle.saturating_add(1);
        }
    }
}
