// What stands around the layers: the head with title and legend, and of each band the numbers of ticks and the names of rows.
use crate::canvas::Canvas;
use crate::kinds::Class;
use crate::naming::{Many, OccupantName};
use crate::shapes::{Area, Point};
use crate::sheet::IDLE;
use quantities::ids::{LockId, TaskId};
use sched::view::Occupant;
use script::sink::Sink;
use std::fmt;
use std::fmt::Write;

impl<S: Sink> Canvas<'_, S> {
    // All that stands before the layers.
    pub fn open(&mut self) -> fmt::Result {
        self.svg()?;
        self.pen.style(self.sheet.scale)?;
        writeln!(
            self.pen,
            "<rect width=\"100%\" height=\"100%\" fill=\"#fff\"/>"
        )?;
        self.title()?;
        self.pen.legend()?;
        // not every band of the sheet is drawn, and its number is what its ticks are counted from
        for k in 0..self.sheet.many() {
            self.band(k)?;
        }
        Ok(())
    }

    pub fn close(&mut self) -> fmt::Result {
        writeln!(self.pen, "</svg>")
    }

    fn svg(&mut self) -> fmt::Result {
        let width = self.sheet.width();
        let height = self.sheet.height();
        writeln!(
            self.pen,
            "<svg xmlns=\"http://www.w3.org/2000/svg\" width=\"{width}\" height=\"{height}\" viewBox=\"0 0 {width} {height}\" font-family=\"Helvetica, Arial, sans-serif\" font-size=\"11\">"
        )
    }

    fn title(&mut self) -> fmt::Result {
        let tally = self.sheet.tally;
        let ticks = Many {
            n: tally.ticks,
            one: "tick",
            more: "ticks",
        };
        self.pen.words(
            "T",
            Point { x: 24, y: 34 },
            format_args!("Whose each tick was: an evening of {ticks}"),
        )?;
        self.pen.words("S", Point { x: 24, y: 54 }, tally)
    }

    // A band before anything is drawn on it.
    fn band(&mut self, k: u32) -> fmt::Result {
        self.grid(k)?;
        for (i, m) in TaskId::all().zip(LockId::all()) {
            if let Some(occupant) = self.sheet.band(k).names[i.index()] {
                self.task(k, i, occupant)?;
            }
            if self.sheet.band(k).locks.has(m) {
                self.lock(k, m)?;
            }
        }
        let band = self.sheet.band(k);
        if band.idle {
            let top = Point {
                x: 44,
                y: band.nobody(),
            };
            self.pen.words("S", top.below(IDLE - 6), "nobody")?;
        }
        Ok(())
    }

    // The numbers of ticks, and a line downwards from each.
    fn grid(&mut self, k: u32) -> fmt::Result {
        let scale = self.sheet.scale;
        let columns = self.sheet.columns(k);
        let band = self.sheet.band(k);
        let y = band.axis();
        let height = band.bottom().saturating_sub(y);
        for column in 0..columns {
            let number = k
                .saturating_mul(scale.per_band())
                .saturating_add(column)
                .saturating_add(1);
            if column == 0 || number % scale.numbered() == 0 {
                let top = Point {
                    x: scale.x(column),
                    y,
                };
                self.pen.path("u", format_args!("{top}v{height}"))?;
                self.pen
                    .words("y", top.right(scale.tick() / 2).above(6), number)?;
            }
        }
        let top = Point {
            x: scale.x(columns),
            y,
        };
        self.pen.path("u", format_args!("{top}v{height}"))?;
        self.pen.words("S", Point { x: 44, y }.above(6), "tick")
    }

    fn task(&mut self, k: u32, i: TaskId, occupant: Occupant) -> fmt::Result {
        let row = self.sheet.scale.row();
        let top = Point {
            x: 44,
            y: self.sheet.band(k).task(i),
        };
        let badge = Area {
            corner: top.below(row.boxes),
            width: 6,
            height: row.depth,
        };
        let class = Class::of(occupant).map_or("k", Class::style);
        self.pen.path(class, badge)?;
        let base = badge.corner.below(row.depth.saturating_sub(2));
        self.pen.words("p", base.left(6), u32::from(i))?;
        self.pen.words("S", base.right(12), OccupantName(occupant))
    }

    fn lock(&mut self, k: u32, m: LockId) -> fmt::Result {
        let top = Point {
            x: 44,
            y: self.sheet.band(k).lock(m),
        };
        let base = top.below(self.sheet.scale.row().lock.saturating_sub(5));
        let number = u32::from(m);
        self.pen.words("S", base, format_args!("lock {number}"))
    }
}
