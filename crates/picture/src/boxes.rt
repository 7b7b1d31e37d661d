// Whose the ticks are: a box for each run of ticks of one task, hatched where another runs in them.
use crate::canvas::Canvas;
use crate::drawing::Layer;
use crate::kinds::Class;
use crate::moment::Moment;
use crate::runs::{Run, Shown};
use crate::shapes::{Area, digits};
use crate::sheet::IDLE;
use layout::Stretch;
use quantities::ids::TaskId;
use script::sink::Sink;
use std::fmt;

// Whose a tick is, and who runs in it. Their kinds belong to it: a place may be given to a task of another kind.
#[derive(Clone, Copy, PartialEq)]
struct Turn {
    whose: TaskId,
    runs: TaskId,
    owner: Option<Class>,
    runner: Option<Class>,
}

impl Turn {
    fn of(moment: &Moment) -> Option<Self> {
        let (whose, runs) = moment.turn()?;
        Some(Turn {
            whose,
            runs,
            owner: moment.class(whose),
            runner: moment.class(runs),
        })
    }
}

#[derive(Drop)]
pub struct Boxes {
    // nobody's ticks are shown too
    turn: Shown<Option<Turn>>,
}

impl Boxes {
    pub fn new() -> Self {
        Boxes {
            turn: Shown::nothing(),
        }
    }
}

impl Layer for Boxes {
    fn turn<S: Sink>(&mut self, canvas: &mut Canvas<S>, moment: Option<&Moment>) -> fmt::Result {
        match self.turn.turn(moment.map(Turn::of), canvas.at) {
            Some(run) => canvas.ticks(run),
            None => Ok(()),
        }
    }
}

impl<S: Sink> Canvas<'_, S> {
    fn ticks(&mut self, run: Run<Option<Turn>>) -> fmt::Result {
        let stretch = run.stretch;
        match run.what {
            Some(turn) => self.boxes(stretch, turn),
            None => self.idle(stretch),
        }
    }

    fn idle(&mut self, stretch: Stretch) -> fmt::Result {
        let area = Area {
            corner: self.sheet.nobody(stretch.start()).below(4),
            width: stretch.width(self.sheet.scale),
            height: IDLE - 8,
        };
        self.pen.path("i", area)?;
        self.hairlines(stretch, area)
    }

    // The box in the row of the task whose the ticks are, hatched where another runs in them.
    fn boxes(&mut self, stretch: Stretch, turn: Turn) -> fmt::Result {
        let area = self.sheet.boxed(turn.whose, stretch);
        let lent = turn.whose != turn.runs;
        self.pen.path(turn.owner.map_or("i", Class::style), area)?;
        if lent {
            self.pen.path("h", area)?;
        }
        self.hairlines(stretch, area)?;
        if lent {
            self.lent(stretch, turn, area)?;
        }
        Ok(())
    }

    // Who runs in them, written into the box; and a hollow box in the runner's row, with whose they are.
    fn lent(&mut self, stretch: Stretch, turn: Turn, area: Area) -> fmt::Result {
        let hollow = self.sheet.boxed(turn.runs, stretch);
        match turn.runner {
            Some(class) => self.pen.path(format_args!("o {class}o"), hollow)?,
            None => self.pen.path("o", hollow)?,
        }
        self.number_in(area, turn.runs)?;
        self.number_in(hollow, turn.whose)
    }

    // Between two ticks of one box.
    fn hairlines(&mut self, stretch: Stretch, area: Area) -> fmt::Result {
        if stretch.ticks() > 1 {
            self.pen.path("t", area)?;
        }
        Ok(())
    }

    // The number of a task in the middle of a box, if it has room.
    fn number_in(&mut self, area: Area, i: TaskId) -> fmt::Result {
        let (class, digit) = if self.sheet.scale.row().small {
            ("n ns", 5)
        } else {
            ("n", 7)
        };
        let number = u32::from(i);
        if area.width < digits(number).saturating_mul(digit) {
            return Ok(());
        }
        let base = area
            .corner
            .right(area.width / 2)
            .below(area.height.saturating_sub(3));
        self.pen.words(class, base, number)
    }
}
