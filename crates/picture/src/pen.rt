// Writes the elements of the picture, each on a line of its own. What was written is handed on when no more finds room: not a
// page of the player, which takes bytes and hands on between two lines.
ghost use Rattle.std.specs.Prelude.{◌≡◌, ℕ, ◌+◌, ◌≤◌, List, [], ◌++◌, length, IsOk};
ghost use Rattle.arrayvec.specs.ArrayString.{array_string_len};

use crate::shapes::{Area, Point};
use arrayvec::ArrayString;
use script::sink::{Sink, Stopped};
use std::fmt;
use std::fmt::{Display, Write};

// Room for many elements.
const ROOM: usize = 65536;

#[derive(Drop)]
pub struct Pen<'a, S: Sink> {
    written: ArrayString<ROOM>,
    out: &'a mut S,
}

impl<S: Sink> Write for Pen<'_, S> {
    ghost use Rattle.picture.specs.Drawn.{Drawn};

    // Nothing is lost, and nothing else is put in.
    ghost write_str_gives = { λ p text q. (xs : List ℕ) → Drawn S.took p.out.now p.written.bytes xs → Drawn S.took q.out.now q.written.bytes (xs ++ text) };

    // Where there is no room, it fails if what was written can't be handed on, or if the text is longer than there is ever room.
    fn write_str(&mut self, text: &str) -> fmt::Result
        ensures ok { IsOk result → (xs : List ℕ) → Drawn S.took self.old.out.now self.old.written.bytes xs → Drawn S.took self.new.out.now self.new.written.bytes (xs ++ text.now) }
        ensures fits { array_string_len self.old.written + length text.now ≤ 65536 → IsOk result }
        ensures room { array_string_len self.old.written + length text.now ≤ 65536 → (self.new.written.bytes ≡ self.old.written.bytes ++ text.now) × (self.new.out.now ≡ self.old.out.now) }
    {
        if self.written.remaining_capacity() < text.len() {
            self.hand_on().map_err(|_| fmt::Error)?;
        }
        self.written.write_str(text)
    }
}

impl<'a, S: Sink> Pen<'a, S> {
    ghost use Rattle.picture.specs.Drawn.{Drawn};

    pub fn new(out: &'a mut S) -> Self {
        Pen {
            written: ArrayString::new(),
            out,
        }
    }

    // Hands on what was written.
    pub fn hand_on(&mut self) -> Result<(), Stopped>
        ensures empty { IsOk result → self.new.written.bytes ≡ [] }
        ensures taken { IsOk result → (xs : List ℕ) → Drawn S.took self.old.out.now self.old.written.bytes xs → S.took self.new.out.now xs }
    {
        self.out.take(self.written.as_str().as_bytes())?;
        self.written.clear();
        Ok(())
    }

    pub fn path<C: Display + Drop, D: Display + Drop>(&mut self, class: C, data: D) -> fmt::Result {
        writeln!(self, "<path class=\"{class}\" d=\"{data}\"/>")
    }

    pub fn dot(&mut self, class: &str, centre: Point, radius: u32) -> fmt::Result {
        let Point { x, y } = centre;
        writeln!(
            self,
            "<circle class=\"{class}\" cx=\"{x}\" cy=\"{y}\" r=\"{radius}\"/>"
        )
    }

    pub fn words<T: Display + Drop>(&mut self, class: &str, at: Point, text: T) -> fmt::Result {
        let Point { x, y } = at;
        writeln!(
            self,
            "<text class=\"{class}\" x=\"{x}\" y=\"{y}\">{text}</text>"
        )
    }

    // A white plate around this point, on which words of so many letters can be read.
    pub fn plate(&mut self, middle: Point, letters: u32) -> fmt::Result {
        let half = letters.saturating_mul(3);
        let area = Area {
            corner: middle.left(half).above(5),
            width: half.saturating_mul(2),
            height: 10,
        };
        self.path("P", area)
    }
}
