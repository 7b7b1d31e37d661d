// A transcript in a room of which all is accounted for: what was written, and that the rest is as it was lent.
ghost use Rattle.std.specs.Prelude.{◌≡◌, ℕ, true, List, ◌++◌, take, is_ok};
ghost use Rattle.export.specs.Transcribed.{Took};

use crate::room::write_after;
use script::sink::{Sink, Stopped};

#[derive(Drop)]
pub struct Accounted<'a> {
    room: &'a mut [u8],
    // how many bytes were written: the room is the lender's, so that its length is no count of them
    len: usize,
}

impl<'a> Accounted<'a> {
    pub fn new(room: &'a mut [u8]) -> Accounted<'a>
        ensures room { result.room.now ≡ room.old }
        ensures lender { result.room.ghost_name ≡ room.entry.ghost_name }
        ensures len { result.len ≡ 0 }
    {
        Accounted { room, len: 0 }
    }

    // How many bytes were written.
    pub fn len(&self) -> usize
        ensures { result ≡ self.now.len }
    {
        self.len
    }
}

// Takes the lines, or none of them if there is no room.
impl<'a> Sink for Accounted<'a> {
    ghost took = { Took };

    fn take(&mut self, lines: &[u8]) -> Result<(), Stopped>
        ensures took { is_ok result ≡ true → (xs : List ℕ) → Took self.old xs → Took self.new (xs ++ lines.now) }
        ensures text { is_ok result ≡ true → take self.new.len self.new.room.now ≡ take self.old.len self.old.room.now ++ lines.now }
    {
        self.len = write_after(self.room, self.len, lines).ok_or(Stopped)?;
        Ok(())
    }
}
