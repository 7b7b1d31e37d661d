// The uppermost layer: calls that were turned away, on the time line, and who comes to a place after another.
use crate::canvas::Canvas;
use crate::drawing::Layer;
use crate::lanes::Lanes;
use crate::moment::Moment;
use crate::naming::KindName;
use crate::shapes::Point;
use crate::sheet::LANE;
use quantities::ids::TaskId;
use sched::{Answer, Call, Kind};
use script::sink::Sink;
use std::fmt;

#[derive(Clone, Copy, Default)]
struct Place {
    // who was made since the last tick
    made: Option<Kind>,
    // somebody was there in this band
    used: bool,
}

#[derive(Drop)]
pub struct Notes {
    lanes: Lanes,
    places: [Place; 64],
}

impl Notes {
    pub fn new() -> Self {
        Notes {
            lanes: Lanes::default(),
            places: [Place::default(); 64],
        }
    }

    fn refused<S: Sink>(&mut self, canvas: &mut Canvas<S>, number: u32) -> fmt::Result {
        let scale = canvas.sheet.scale;
        let axis = Point {
            x: scale.x(canvas.at.column),
            y: canvas.sheet.band(canvas.at.band).axis(),
        };
        let mark = axis.above(4);
        canvas.pen.path("Z", format_args!("{mark}v4"))?;
        let Some(lane) = self.lanes.place(scale, canvas.at.column) else {
            return Ok(());
        };
        let base = axis.below(lane.saturating_mul(LANE)).below(11);
        if scale.row().small {
            return canvas.pen.words("z", base, number);
        }
        canvas.pen.words("z", base, format_args!("no {number}"))
    }

    fn tick<S: Sink>(&mut self, canvas: &mut Canvas<S>, moment: &Moment) -> fmt::Result {
        for i in TaskId::all() {
            if moment.occupant(i).is_none() {
                continue;
            }
            let place = &mut self.places[i.index()];
            let made = place.made.take();
            if let Some(kind) = made.filter(|_| place.used) {
                canvas.renamed(i, kind)?;
            }
            place.used = true;
        }
        Ok(())
    }

    fn end_band(&mut self) {
        self.lanes = Lanes::default();
        for place in &mut self.places {
            place.used = false;
        }
    }
}

impl Layer for Notes {
    fn answered<S: Sink>(
        &mut self,
        canvas: &mut Canvas<S>,
        call: Call,
        answer: Answer,
    ) -> fmt::Result {
        match (answer, call) {
            (Answer::Id(number), Call::Make(kind)) => {
                if let Ok(i) = TaskId::try_from(number) {
                    self.places[i.index()].made = Some(kind);
                }
                Ok(())
            }
            (Answer::No(number), _) => self.refused(canvas, number),
            _ => Ok(()),
        }
    }

    fn turn<S: Sink>(&mut self, canvas: &mut Canvas<S>, moment: Option<&Moment>) -> fmt::Result {
        match moment {
            Some(moment) => self.tick(canvas, moment),
            None => {
                self.end_band();
                Ok(())
            }
        }
    }
}

impl<S: Sink> Canvas<'_, S> {
    // Another task has come to the place.
    fn renamed(&mut self, i: TaskId, kind: Kind) -> fmt::Result {
        let row = self.sheet.scale.row();
        let corner = self.sheet.task(self.at, i);
        let top = corner.below(2);
        let height = row.height.saturating_sub(4);
        self.pen.path("g", format_args!("{top}v{height}"))?;
        let middle = corner.below(row.bracket);
        self.pen.plate(middle.right(56), 18)?;
        let name = KindName(kind);
        self.pen.words("q c", middle.right(4).below(3), format_args!("now {name}"))
    }
}
