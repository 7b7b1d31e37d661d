// How what stands on a page is handed on.
ghost use Rattle.std.specs.Prelude.{◌≡◌, ℕ, ◌<◌, true, List, [], ◌∷◌, length, is_ok};
ghost use Rattle.script.specs.Printed.{pending, Printed, Prints, Roomy};

use super::{LONGEST_LINE, Page};
use crate::sink::{Sink, Stopped};

impl Page {
    // What was gathered is handed on.
    pub fn flush<S: Sink>(&mut self, out: &mut S) -> Result<(), Stopped>
        ensures empty { pending self.new ≡ [] }
        ensures printed { is_ok result ≡ true → (xs : List ℕ) → Printed S.Sink.took out.old self.old xs → Printed S.Sink.took out.new self.new xs }
    {
        if self.bytes.is_empty() {
            return Ok(());
        }
        let taken = out.take(&self.bytes);
        self.bytes.clear();
        taken
    }

    // The line ends; the next one will find room.
    pub fn end_line<S: Sink>(&mut self, out: &mut S) -> Result<(), Stopped>
        ensures room { Roomy self.new }
        ensures printed { is_ok result ≡ true → length (pending self.old) < 65536 → Prints S.Sink.took out.old self.old out.new self.new (10 ∷ []) }
    {
        self.put(b'\n');
        if self.bytes.remaining_capacity() < LONGEST_LINE {
            return self.flush(out);
        }
        Ok(())
    }
}
