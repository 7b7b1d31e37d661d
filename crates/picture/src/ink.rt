// The middle layer: whose the ticks are, windows, locks.
use crate::boxes::Boxes;
use crate::brackets::Brackets;
use crate::canvas::Canvas;
use crate::drawing::Layer;
use crate::locking::Locking;
use crate::moment::Moment;
use script::sink::Sink;
use std::fmt;

#[derive(Drop)]
pub struct Ink {
    boxes: Boxes,
    brackets: Brackets,
    locking: Locking,
}

impl Ink {
    pub fn new() -> Self {
        Ink {
            boxes: Boxes::new(),
            brackets: Brackets::new(),
            locking: Locking::new(),
        }
    }
}

impl Layer for Ink {
    fn turn<S: Sink>(&mut self, canvas: &mut Canvas<S>, moment: Option<&Moment>) -> fmt::Result {
        self.boxes.turn(canvas, moment)?;
        self.brackets.turn(canvas, moment)?;
        self.locking.turn(canvas, moment)
    }
}
