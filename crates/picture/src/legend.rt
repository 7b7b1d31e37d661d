// What the signs mean: three columns, of five, four and four.
use crate::pen::Pen;
use crate::shapes::{Area, Bracket, Point};
use script::sink::Sink;
use std::fmt;

const LINE: u32 = 22;

const SIGN: u32 = 36;

// Where the columns begin.
const FIRST: Point = Point { x: 24, y: 68 };

const SECOND: Point = Point { x: 284, y: 68 };

const THIRD: Point = Point { x: 584, y: 68 };

// The top of a line of this column.
fn line(column: Point, k: u32) -> Point {
    column.below(k.saturating_mul(LINE))
}

impl<S: Sink> Pen<'_, S> {
    pub fn legend(&mut self) -> fmt::Result {
        self.tasks()?;
        self.ticks()?;
        self.windows()?;
        self.lending()
    }

    fn sign(&mut self, class: &str, corner: Point, width: u32) -> fmt::Result {
        let area = Area {
            corner,
            width,
            height: 13,
        };
        self.path(class, area)
    }

    // What the sign at this corner means.
    fn says(&mut self, corner: Point, text: &str) -> fmt::Result {
        self.words("S", corner.right(SIGN + 8).below(11), text)
    }

    fn tasks(&mut self) -> fmt::Result {
        let signs = [
            ("r", "tick of a reserved task"),
            ("x", "tick of a fixed task"),
            ("f", "tick of a fair task"),
            ("i", "nobody's tick"),
        ];
        for (k, (class, text)) in (0..).zip(signs) {
            let corner = line(FIRST, k);
            self.sign(class, corner, SIGN)?;
            self.says(corner, text)?;
        }
        Ok(())
    }

    fn ticks(&mut self) -> fmt::Result {
        let corner = line(FIRST, 4);
        let mut quarter = corner;
        for class in ["rw", "xw", "fw", "s"] {
            self.sign(class, quarter, SIGN / 4)?;
            quarter = quarter.right(SIGN / 4);
        }
        self.says(corner, "pale: wants a tick; grey: wants none")
    }

    fn windows(&mut self) -> fmt::Result {
        let whole = line(SECOND, 0);
        self.window(whole, "w", "d")?;
        self.says(whole, "a whole window; dot: quota had")?;
        let broken = line(SECOND, 1);
        self.window(broken, "w b", "e")?;
        self.says(broken, "no longer whole; ring: quota not had")?;
        let kept = line(SECOND, 2);
        self.sign("k", kept, SIGN)?;
        self.says(kept, "ended; its share is still taken")?;
        let refused = line(SECOND, 3);
        self.words("z", refused.below(11), "no 3")?;
        self.says(refused, "a call was turned away, and why")
    }

    fn window(&mut self, corner: Point, class: &str, dot: &str) -> fmt::Result {
        let corner = corner.below(4);
        let bracket = Bracket {
            corner,
            width: SIGN,
            foot: 6,
            begins: true,
            ends: true,
        };
        self.path(class, bracket)?;
        self.dot(dot, corner.right(SIGN - 6), 3)
    }

    fn lending(&mut self) -> fmt::Result {
        let lent = line(THIRD, 0);
        self.sign("r", lent, SIGN)?;
        self.sign("h", lent, SIGN)?;
        self.words("n", lent.right(SIGN / 2).below(11), 2)?;
        self.says(lent, "its tick, but 2 runs in it")?;
        let borrowed = line(THIRD, 1);
        self.sign("o fo", borrowed, SIGN)?;
        self.words("n", borrowed.right(SIGN / 2).below(11), 0)?;
        self.says(borrowed, "it runs in a tick of 0")?;
        let waiting = line(THIRD, 2);
        let dashes = waiting.below(8);
        self.path("v", format_args!("{dashes}h{SIGN}"))?;
        self.says(waiting, "waits for a lock: lends its ticks")?;
        let held = line(THIRD, 3);
        self.sign("m", held, SIGN)?;
        self.says(held, "somebody has the lock")
    }
}
