// Text in memory: a script, what is written for it, what is expected.
ghost use Rattle.std.specs.Prelude.{◌≡◌, ◌+◌, ◌≤◌, ◌↔◌, [], ◌++◌, length, IsOk, OnOk, OnErr};

use arrayvec::ArrayVec;
use script::sink::{Sink, Stopped};
use thiserror::Error;

#[derive(Drop)]
pub struct Room {
    text: ArrayVec<u8, 65536>,
}

// There is no room for it.
#[derive(Clone, Copy, Debug, Error)]
#[error("the text is too long")]
pub struct Full;

impl Room {
    pub fn new() -> Room
        ensures { result.text.items ≡ [] }
    {
        Room {
            text: ArrayVec::new(),
        }
    }

    // These bytes too, or none of them if there is no room for all.
    pub fn push(&mut self, more: &[u8]) -> Result<(), Full>
        ensures taken { OnOk result (self.new.text.items ≡ self.old.text.items ++ more.now) }
        ensures refused { OnErr result (self.new ≡ self.old) }
        ensures fits { IsOk result ↔ (length self.old.text.items + length more.now ≤ 65536) }
    {
        // `map_err` here and below, since what the error holds isn't wanted.
        self.text.try_extend_from_slice(more).map_err(|_| Full)
    }

    pub fn bytes(&self) -> &[u8]
        ensures { result.now ≡ self.now.text.items }
    {
        self.text.as_slice()
    }
}

impl Sink for Room {
    ghost took = { λ r xs. r.text.items ≡ xs };

    fn take(&mut self, lines: &[u8]) -> Result<(), Stopped> {
        self.push(lines).map_err(|_| Stopped)
    }
}
