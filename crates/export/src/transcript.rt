// A lent slice that takes what a script's player writes.
ghost use Rattle.std.specs.Prelude.{◌≡◌, ℕ, true, List, ◌++◌, take, is_ok};
ghost use Rattle.export.specs.Transcribed.{Took, accounted};

use crate::room::write_after;
use script::sink::{Sink, Stopped};

#[derive(Drop)]
pub struct Transcript<'a> {
    room: &'a mut [u8],
    // how many bytes were written: the room is the lender's, so that its length is no count of them
    len: usize,
}

impl<'a> Transcript<'a> {
    pub fn new(room: &'a mut [u8]) -> Transcript<'a>
        ensures room { result.room.now ≡ room.old }
        ensures lender { result.room.ghost_name ≡ room.entry.ghost_name }
        ensures len { result.len ≡ 0 }
    {
        Transcript { room, len: 0 }
    }

    // How many bytes were written. So many of the room are what it took, whatever it took before.
    pub fn len(&self) -> usize
        ensures len { result ≡ self.now.len }
        ensures took { ⟦<Transcript<'a> as Sink>⟧.took self.now (take self.now.len self.now.room.now) }
    {
        self.len
    }
}

// Takes the lines, or none of them if there is no room.
impl<'a> Sink for Transcript<'a> {
    ghost took = { λ t xs. take t.len t.room.now ≡ xs };

    fn take(&mut self, lines: &[u8]) -> Result<(), Stopped>
        ensures took { is_ok result ≡ true → (xs : List ℕ) → take self.old.len self.old.room.now ≡ xs → take self.new.len self.new.room.now ≡ xs ++ lines.now }
        ensures account { is_ok result ≡ true → (xs : List ℕ) → Took (accounted self.old) xs → Took (accounted self.new) (xs ++ lines.now) }
    {
        self.len = write_after(self.room, self.len, lines).ok_or(Stopped)?;
        Ok(())
    }
}
