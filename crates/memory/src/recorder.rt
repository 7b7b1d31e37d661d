// A world in memory that owns its script and its log. That the log is a legal run is part of its type.
ghost use Rattle.std.specs.Prelude.{T};
ghost use Rattle.sched.specs.House.{empty};
ghost use Rattle.memory.specs.Run.{legal};

use crate::entry::{Entry, Step};
use arrayvec::ArrayVec;

mod methods;
pub mod world;

// Room for so many steps, and for as many entries.
pub const ROOM: usize = 1024;

#[derive(Drop)]
pub struct Recorder {
    script: ArrayVec<Step, ROOM>,
    log: ArrayVec<Entry, ROOM>,
    ghost lawful: { T (legal empty log.items) },
}
