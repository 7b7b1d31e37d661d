// The windows of reserved tasks: a bracket above the boxes, broken where the window isn't whole any more, and a dot at its
// end that says whether the quota was had.
use crate::canvas::Canvas;
use crate::drawing::Layer;
use crate::moment::Moment;
use crate::runs::{Run, Shown};
use crate::shapes::{Bracket, Point, digits};
use layout::Spot;
use quantities::ids::TaskId;
use sched::Kind;
use sched::view::Occupant;
use script::sink::Sink;
use std::fmt;
use windows::Span;

// The window of a reservation in a tick.
#[derive(Clone, Copy)]
struct WindowInTick {
    quota: u32,
    period: u32,
    // as it was before the tick; none if it opens in it
    before: Option<Span>,
    wants: bool,
    // the tick is had of it
    mine: bool,
}

impl WindowInTick {
    // A window opens if the task wants the tick and has none.
    fn of(moment: &Moment, i: TaskId) -> Option<Self> {
        let view = moment.place(i);
        let (quota, period, mine) = match view.occupant {
            Occupant::Task(Kind::Reserved(quota, period)) => (quota, period, moment.is_of(i)),
            Occupant::Kept(quota, period) => (quota, period, false),
            _ => return None,
        };
        let before = view.window.span;
        if before.is_none() && !view.wants {
            return None;
        }
        Some(WindowInTick {
            quota,
            period,
            before,
            wants: view.wants,
            mine,
        })
    }

    // It stays whole if it was and the task wants the tick.
    fn is_whole(self) -> bool {
        self.wants && self.before.is_none_or(Span::is_whole)
    }

    fn opens(self) -> bool {
        self.before.is_none()
    }

    // This tick is its last.
    fn closes(self) -> bool {
        self.before.is_some_and(|span| span.ends() == 1)
    }

    // Ticks had of it, this one included.
    fn got(self) -> u32 {
        self.before
            .map_or(0, Span::got)
            .saturating_add(u32::from(self.mine))
    }
}

// A piece of a bracket. It goes on while the window is whole, or isn't.
#[derive(Clone, Copy)]
#[derive_where(PartialEq)]
struct Piece {
    whole: bool,
    // the window begins with it
    #[derive_where(skip)]
    begins: bool,
}

#[derive(Drop)]
pub struct Brackets {
    // by task
    pieces: [Shown<Piece>; 64],
}

impl Brackets {
    pub fn new() -> Self {
        Brackets {
            pieces: [Shown::nothing(); 64],
        }
    }
}

impl Layer for Brackets {
    fn turn<S: Sink>(&mut self, canvas: &mut Canvas<S>, moment: Option<&Moment>) -> fmt::Result {
        for i in TaskId::all() {
            let window = moment.and_then(|moment| WindowInTick::of(moment, i));
            let next = window.map(|window| Piece {
                whole: window.is_whole(),
                begins: window.opens(),
            });
            let piece = &mut self.pieces[i.index()];
            if let Some(run) = piece.turn(next, canvas.at) {
                canvas.piece(i, run, false)?;
            }
            if let Some(window) = window.filter(|window| window.closes()) {
                let end = canvas.at.after();
                if let Some(run) = piece.turn(None, end) {
                    canvas.piece(i, run, true)?;
                }
                canvas.quota(i, end, window)?;
            }
        }
        Ok(())
    }
}

impl<S: Sink> Canvas<'_, S> {
    // A piece of a bracket, which may end with its window.
    fn piece(&mut self, i: TaskId, run: Run<Piece>, ends: bool) -> fmt::Result {
        let Run {
            what: Piece { whole, begins },
            stretch,
        } = run;
        let row = self.sheet.scale.row();
        let margin: u32 = if begins { 2 } else { 0 };
        let bracket = Bracket {
            corner: self
                .sheet
                .task(stretch.start(), i)
                .right(margin)
                .below(row.bracket),
            width: stretch
                .width(self.sheet.scale)
                .saturating_sub(margin + u32::from(ends)),
            foot: row.foot,
            begins,
            ends,
        };
        self.pen.path(if whole { "w" } else { "w b" }, bracket)
    }

    // At the end of a window: whether the quota was had, and where there is room how much of it.
    fn quota(&mut self, i: TaskId, end: Spot, window: WindowInTick) -> fmt::Result {
        let row = self.sheet.scale.row();
        let at = self.sheet.task(end, i).below(row.bracket);
        let class = if window.got() >= window.quota {
            "d"
        } else {
            "e"
        };
        self.pen.dot(class, at.left(row.dot).left(3), row.dot)?;
        let width = self.sheet.scale.width(window.period.min(end.column));
        if width >= 90 && !row.small {
            self.quota_had(at.left(width / 2), window)?;
        }
        Ok(())
    }

    // How much of the quota was had, in the middle of the bracket.
    fn quota_had(&mut self, middle: Point, window: WindowInTick) -> fmt::Result {
        let got = window.got();
        let quota = window.quota;
        let letters = digits(got).saturating_add(digits(quota)).saturating_add(5);
        self.pen.plate(middle, letters)?;
        self.pen
            .words("q", middle.below(3), format_args!("{got} of {quota}"))
    }
}
