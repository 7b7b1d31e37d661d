// The second look: which rows each band has.
// `as usize`, since the library has no `From` from `u32`.
use crate::lanes::Lanes;
use crate::moment::Moment;
use crate::session::Viewer;
use crate::sheet::{Band, Sheet};
use crate::survey::Tally;
use layout::{MOST_BANDS, Scale, Spot};
use quantities::ids::{LockId, TaskId};
use sched::{Answer, Call};

#[derive(Drop)]
pub struct Bands {
    sheet: Sheet,
    // ticks seen
    seen: u32,
    lanes: Lanes,
}

impl Bands {
    pub fn new(tally: Tally) -> Self {
        let scale = Scale::of(tally.drawn());
        Bands {
            sheet: Sheet {
                tally,
                scale,
                bands: [Band::new(scale); MOST_BANDS],
            },
            seen: 0,
            lanes: Lanes::default(),
        }
    }

    // What was seen, laid out.
    pub fn sheet(mut self) -> Sheet {
        self.sheet.stack();
        self.sheet
    }

    // A refusal before the tick of this spot.
    fn refuse(&mut self, spot: Spot) {
        let scale = self.sheet.scale;
        if let Some(band) = self.sheet.bands.get_mut(spot.band as usize) {
            if let Some(lane) = self.lanes.place(scale, spot.column) {
                band.lanes = band.lanes.max(lane.saturating_add(1));
            }
        }
    }
}

impl Band {
    // What there is in a tick of the band. The row of a place is called by who was first seen there.
    fn note(&mut self, moment: &Moment) {
        for i in TaskId::all() {
            self.names[i.index()] = self.names[i.index()].or(moment.occupant(i));
        }
        for m in LockId::all() {
            if moment.owner(m).is_some() {
                self.locks.show(m);
            }
        }
        self.idle |= moment.turn().is_none();
    }
}

impl Viewer for Bands {
    fn is_done(&self) -> bool {
        self.sheet.is_over(self.seen)
    }

    fn answered(&mut self, _call: Call, answer: Answer) {
        if let Answer::No(_) = answer {
            let spot = self.sheet.boundary(self.seen);
            self.refuse(spot);
        }
    }

    fn tick(&mut self, moment: &Moment) {
        let spot = self.sheet.scale.spot(self.seen);
        if let Some(band) = self.sheet.bands.get_mut(spot.band as usize) {
            band.note(moment);
        }
        self.seen = self.seen.saturating_add(1);
        if self.sheet.begins_band(self.seen) {
            self.lanes = Lanes::default();
        }
    }
}
