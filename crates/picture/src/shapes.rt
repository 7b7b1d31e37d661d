// Points, and the shapes of paths: written out, they are the data of a path.
use std::fmt;

#[derive(Clone, Copy)]
pub struct Point {
    pub x: u32,
    pub y: u32,
}

impl Point {
    pub fn right(self, by: u32) -> Self {
        Point {
            x: self.x.saturating_add(by),
            y: self.y,
        }
    }

    pub fn left(self, by: u32) -> Self {
        Point {
            x: self.x.saturating_sub(by),
            y: self.y,
        }
    }

    pub fn below(self, by: u32) -> Self {
        Point {
            x: self.x,
            y: self.y.saturating_add(by),
        }
    }

    pub fn above(self, by: u32) -> Self {
        Point {
            x: self.x,
            y: self.y.saturating_sub(by),
        }
    }
}

// A path begins here.
impl fmt::Display for Point {
    fn fmt<W: fmt::Write>(&self, f: &mut fmt::Formatter<W>) -> fmt::Result {
        write!(f, "M{} {}", self.x, self.y)
    }
}

// A rectangle.
#[derive(Clone, Copy)]
pub struct Area {
    pub corner: Point,
    pub width: u32,
    pub height: u32,
}

impl fmt::Display for Area {
    fn fmt<W: fmt::Write>(&self, f: &mut fmt::Formatter<W>) -> fmt::Result {
        let Area {
            corner,
            width,
            height,
        } = *self;
        write!(f, "{corner}h{width}v{height}h-{width}z")
    }
}

// A line above something, with a foot at each end where it has one.
#[derive(Clone, Copy)]
pub struct Bracket {
    pub corner: Point,
    pub width: u32,
    pub foot: u32,
    // each end has its foot or not, whatever the other has: two tests say it more plainly than a type of four cases
    pub begins: bool,
    pub ends: bool,
}

impl fmt::Display for Bracket {
    fn fmt<W: fmt::Write>(&self, f: &mut fmt::Formatter<W>) -> fmt::Result {
        let Bracket {
            corner,
            width,
            foot,
            begins,
            ends,
        } = *self;
        if begins {
            let base = corner.below(foot);
            write!(f, "{base}v-{foot}h{width}")?;
        } else {
            write!(f, "{corner}h{width}")?;
        }
        if ends {
            write!(f, "v{foot}")?;
        }
        Ok(())
    }
}

// How many digits a number has.
pub fn digits(n: u32) -> u32 {
    n.checked_ilog10().map_or(1, |tens| tens + 1)
}
