// The lowest layer: when each task is there, and when it wants a tick.
use crate::canvas::Canvas;
use crate::drawing::Layer;
use crate::kinds::Class;
use crate::moment::Moment;
use crate::runs::Shown;
use quantities::ids::TaskId;
use sched::view::{Occupant, View};
use script::sink::Sink;
use std::fmt;

#[derive(Clone, Copy, PartialEq, Eq)]
enum Tint {
    // there, and wants nothing
    WantsNone,
    Wants(Class),
    // gone, but its share is kept
    Kept,
}

impl Tint {
    // No `From`, as for `Class::of`.
    fn of(view: View) -> Option<Self> {
        match view.occupant {
            Occupant::Nobody => None,
            Occupant::Task(kind) if view.wants => Some(Tint::Wants(kind.into())),
            Occupant::Task(_) => Some(Tint::WantsNone),
            Occupant::Kept(_, _) => Some(Tint::Kept),
        }
    }
}

// Its class in the style sheet.
impl fmt::Display for Tint {
    fn fmt<W: fmt::Write>(&self, f: &mut fmt::Formatter<W>) -> fmt::Result {
        match *self {
            Tint::WantsNone => f.write_str("s"),
            Tint::Wants(class) => write!(f, "{class}w"),
            Tint::Kept => f.write_str("k"),
        }
    }
}

#[derive(Drop)]
pub struct Ground {
    // by task
    tints: [Shown<Tint>; 64],
}

impl Ground {
    pub fn new() -> Self {
        Ground {
            tints: [Shown::nothing(); 64],
        }
    }
}

impl Layer for Ground {
    fn turn<S: Sink>(&mut self, canvas: &mut Canvas<S>, moment: Option<&Moment>) -> fmt::Result {
        for i in TaskId::all() {
            let tint = moment.and_then(|moment| Tint::of(moment.place(i)));
            if let Some(run) = self.tints[i.index()].turn(tint, canvas.at) {
                canvas
                    .pen
                    .path(run.what, canvas.sheet.boxed(i, run.stretch))?;
            }
        }
        Ok(())
    }
}
