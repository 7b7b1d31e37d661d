// What is to be drawn, and where: the bands, and the rows of each.
use crate::shapes::{Area, Point};
use crate::survey::Tally;
use layout::{MOST_BANDS, Scale, Spot, Stretch};
use quantities::ids::{LockId, TaskId};
use sched::view::Occupant;

// Height of what stands above the first band.
const HEAD: u32 = 184;

// Height of the numbers of ticks above each band.
const AXIS: u32 = 20;

// Height of a lane of refusals.
pub const LANE: u32 = 14;

// Height of the row of ticks that are nobody's.
pub const IDLE: u32 = 20;

// Between two bands.
const GAP: u32 = 26;

// Which locks have a row: a bit for each.
#[derive(Clone, Copy, Default)]
pub struct Rows {
    shown: u64,
}

impl Rows {
    pub fn show(&mut self, m: LockId) {
        self.shown |= bit(m);
    }

    pub fn has(self, m: LockId) -> bool {
        self.shown & bit(m) != 0
    }

    // How many rows there are before that of this lock.
    pub fn before(self, m: LockId) -> u32 {
        (self.shown & !(u64::MAX << m.index())).count_ones()
    }

    pub fn count(self) -> u32 {
        self.shown.count_ones()
    }
}

fn bit(m: LockId) -> u64 {
    1 << m.index()
}

#[derive(Clone, Copy)]
pub struct Band {
    scale: Scale,
    pub top: u32,
    // who was first seen at each place: it has a row
    pub names: [Option<Occupant>; 64],
    pub locks: Rows,
    pub idle: bool,
    // how many lanes the refusals need
    pub lanes: u32,
}

impl Band {
    pub fn new(scale: Scale) -> Self {
        Band {
            scale,
            top: HEAD,
            names: [None; 64],
            locks: Rows::default(),
            idle: false,
            lanes: 0,
        }
    }

    // Where the numbers of ticks end.
    pub fn axis(&self) -> u32 {
        self.top.saturating_add(AXIS)
    }

    // The top of the first row.
    fn rows(&self) -> u32 {
        self.axis().saturating_add(self.lanes.saturating_mul(LANE))
    }

    pub fn task(&self, i: TaskId) -> u32 {
        self.under(&self.names[..i.index()])
    }

    // The top of what comes under the rows of these places.
    fn under(&self, places: &[Option<Occupant>]) -> u32 {
        let height = self.scale.row().height;
        places
            .iter()
            .flatten()
            .fold(self.rows(), |top, _| top.saturating_add(height))
    }

    // The row of ticks that are nobody's.
    pub fn nobody(&self) -> u32 {
        self.under(&self.names)
    }

    fn first_lock(&self) -> u32 {
        let idle = if self.idle { IDLE } else { 0 };
        self.nobody().saturating_add(idle)
    }

    pub fn lock(&self, m: LockId) -> u32 {
        self.under_locks(self.locks.before(m))
    }

    fn under_locks(&self, locks: u32) -> u32 {
        self.first_lock()
            .saturating_add(locks.saturating_mul(self.scale.row().lock))
    }

    pub fn bottom(&self) -> u32 {
        self.under_locks(self.locks.count())
    }
}

#[derive(Drop)]
pub struct Sheet {
    pub tally: Tally,
    pub scale: Scale,
    pub bands: [Band; MOST_BANDS],
}

impl Sheet {
    // Puts each band under the one before it.
    pub fn stack(&mut self) {
        let mut top = HEAD;
        for band in &mut self.bands {
            band.top = top;
            top = band.bottom().saturating_add(GAP);
        }
    }

    // How many bands there are: one even for an evening without a tick.
    pub fn many(&self) -> u32 {
        let last = self.tally.drawn().saturating_sub(1);
        self.scale.spot(last).band.saturating_add(1)
    }

    // Whether all that is drawn has been seen after so many ticks: calls after the last tick are looked at too.
    pub fn is_over(&self, seen: u32) -> bool {
        seen >= self.tally.drawn() && self.tally.ticks > u64::from(seen)
    }

    // The end of the last of so many ticks.
    pub fn end(&self, seen: u32) -> Option<Spot> {
        let last = seen.checked_sub(1)?;
        Some(self.scale.spot(last).after())
    }

    // Where a call after so many ticks is noted: before the next tick, or at the end.
    pub fn boundary(&self, seen: u32) -> Spot {
        match self.end(seen) {
            Some(end) if seen >= self.tally.drawn() => end,
            _ => self.scale.spot(seen),
        }
    }

    // Whether a band begins after so many ticks.
    pub fn begins_band(&self, seen: u32) -> bool {
        seen > 0 && seen < self.tally.drawn() && self.scale.spot(seen).column == 0
    }

    // Where the boxes of a task are for so long.
    pub fn boxed(&self, i: TaskId, stretch: Stretch) -> Area {
        let row = self.scale.row();
        Area {
            corner: self.task(stretch.start(), i).below(row.boxes),
            width: stretch.width(self.scale),
            height: row.depth,
        }
    }

    // The top of the row of a task, at the beginning of a tick.
    pub fn task(&self, at: Spot, i: TaskId) -> Point {
        self.row(at, self.band(at.band).task(i))
    }

    pub fn lock(&self, at: Spot, m: LockId) -> Point {
        self.row(at, self.band(at.band).lock(m))
    }

    // The top of the row of ticks that are nobody's.
    pub fn nobody(&self, at: Spot) -> Point {
        self.row(at, self.band(at.band).nobody())
    }

    fn row(&self, at: Spot, y: u32) -> Point {
        Point {
            x: self.scale.x(at.column),
            y,
        }
    }

    pub fn band(&self, k: u32) -> &Band {
        // `as`, since the library has no `From` from `u32` to `usize`.
        &self.bands[(k as usize).min(MOST_BANDS - 1)]
    }

    // How many ticks there are in the band.
    pub fn columns(&self, k: u32) -> u32 {
        let before = k.saturating_mul(self.scale.per_band());
        self.tally
            .drawn()
            .saturating_sub(before)
            .min(self.scale.per_band())
    }

    // Where time ends in the widest band.
    fn right(&self) -> u32 {
        self.scale.x(self.columns(0))
    }

    pub fn width(&self) -> u32 {
        self.right().saturating_add(44).max(870)
    }

    pub fn height(&self) -> u32 {
        let last = self.many().saturating_sub(1);
        self.band(last).bottom().saturating_add(GAP)
    }
}
