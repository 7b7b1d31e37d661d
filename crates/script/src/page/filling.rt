// How a page is filled. What finds no room is left out.
ghost use Rattle.std.specs.Prelude.{◌≡◌, ◌+◌, ◌<◌, ◌≤◌, [], ◌∷◌, length, decimal};
ghost use Rattle.script.specs.Printed.{pending, Wrote};

use super::Page;
use arrayvec::ArrayVec;
use itoa::Buffer;

impl Page {
    pub fn new() -> Page
        ensures { pending result ≡ [] }
    {
        Page {
            bytes: ArrayVec::new(),
        }
    }

    pub fn text(&mut self, text: &[u8])
        ensures { length (pending self.old) + length text.now ≤ 65536 → Wrote self.old self.new text.now }
    {
        let _ = self.bytes.try_extend_from_slice(text);
    }

    // In decimal digits.
    #[tactic(auto, using(std::proofs::lemmas::Fmt::decimal_digit))]
    pub fn number(&mut self, n: u64)
        ensures text { length (pending self.old) + 20 ≤ 65536 → Wrote self.old self.new (decimal n) }
        ensures most { length (pending self.old) + 20 ≤ 65536 → length (pending self.new) ≤ length (pending self.old) + 20 }
    {
        // One digit is put as it is: many numbers have no more, and a buffer costs more than the byte.
        if n < 10 {
            self.put(b'0' + n as u8);
        } else {
            let mut digits = Buffer::new();
            self.text(digits.format(n).as_bytes());
        }
    }

    pub fn put(&mut self, byte: u8)
        ensures { length (pending self.old) < 65536 → Wrote self.old self.new (byte ∷ []) }
    {
        let _ = self.bytes.try_push(byte);
    }
}
