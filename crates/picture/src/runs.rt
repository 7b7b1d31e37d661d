// Rows that show the same thing for a while: each such run is drawn once, when it is over.
use layout::{Spot, Stretch};
use std::mem;

// What a row showed, and where.
#[derive(Clone, Copy)]
pub struct Run<K> {
    pub what: K,
    pub stretch: Stretch,
}

// What a row shows now, if anything, and the column in which that began.
#[derive(Clone, Copy)]
pub struct Shown<K> {
    since: Option<(K, u32)>,
}

impl<K: Copy + PartialEq> Shown<K> {
    pub fn nothing() -> Self {
        Shown { since: None }
    }

    // From here on the row shows this. What it showed until now is returned, if that is over.
    pub fn turn(&mut self, what: Option<K>, at: Spot) -> Option<Run<K>> {
        if self.since.map(|(shown, _)| shown) == what {
            return None;
        }
        let next = what.map(|what| (what, at.column));
        let (what, from) = mem::replace(&mut self.since, next)?;
        Some(Run {
            what,
            stretch: Stretch::until(from, at),
        })
    }
}
