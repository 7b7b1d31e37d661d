// Text on its way out: whole lines are gathered, and handed on together.
use arrayvec::ArrayVec;

mod filling;
mod handing;
mod telling;

// Room for many lines.
const SIZE: usize = 65536;

// Room that no line exceeds: the longest names the ticks of 64 tasks, each in at most 20 digits.
const LONGEST_LINE: usize = 2048;

#[derive(Drop)]
pub struct Page {
    bytes: ArrayVec<u8, SIZE>,
}
