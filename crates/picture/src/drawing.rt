// The picture, drawn layer by layer: what lies lower is drawn first.
use crate::canvas::Canvas;
use crate::moment::Moment;
use crate::session::{Viewer, play};
use sched::{Answer, Call};
use script::sink::Sink;
use std::fmt;

pub trait Layer: Drop {
    // What a call was answered, of which most layers show nothing.
    fn answered<S: Sink>(
        &mut self,
        _canvas: &mut Canvas<S>,
        _call: Call,
        _answer: Answer,
    ) -> fmt::Result {
        Ok(())
    }

    // What there is in the tick that begins; `None` at the end of a band, up to where all that goes on is drawn.
    fn turn<S: Sink>(&mut self, canvas: &mut Canvas<S>, moment: Option<&Moment>) -> fmt::Result;
}

#[derive(Drop)]
struct Drawing<'a, 'b, L: Layer, S: Sink> {
    canvas: &'a mut Canvas<'b, S>,
    layer: L,
    // ticks seen
    seen: u32,
    // whether all that was to be drawn could be written
    outcome: fmt::Result,
}

// Draws one layer of the evening that a script makes.
pub fn lay<L: Layer, S: Sink>(script: &[u8], layer: L, canvas: &mut Canvas<S>) -> fmt::Result {
    let mut drawing = Drawing {
        canvas,
        layer,
        seen: 0,
        outcome: Ok(()),
    };
    play(script, &mut drawing);
    drawing.outcome?;
    drawing.end_band()
}

impl<L: Layer, S: Sink> Drawing<'_, '_, L, S> {
    fn end_band(&mut self) -> fmt::Result {
        let Some(end) = self.canvas.sheet.end(self.seen) else {
            return Ok(());
        };
        self.canvas.at = end;
        self.layer.turn(self.canvas, None)
    }

    fn draw_tick(&mut self, moment: &Moment) -> fmt::Result {
        self.canvas.at = self.canvas.sheet.scale.spot(self.seen);
        self.layer.turn(self.canvas, Some(moment))?;
        self.seen = self.seen.saturating_add(1);
        if self.canvas.sheet.begins_band(self.seen) {
            self.end_band()?;
        }
        Ok(())
    }
}

impl<L: Layer, S: Sink> Viewer for Drawing<'_, '_, L, S> {
    fn is_done(&self) -> bool {
        self.outcome.is_err() || self.canvas.sheet.is_over(self.seen)
    }

    fn answered(&mut self, call: Call, answer: Answer) {
        self.canvas.at = self.canvas.sheet.boundary(self.seen);
        self.outcome = self.layer.answered(self.canvas, call, answer);
    }

    fn tick(&mut self, moment: &Moment) {
        self.outcome = self.draw_tick(moment);
    }
}
