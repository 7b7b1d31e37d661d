// How a line is taken in.
ghost use Rattle.std.specs.Prelude.{◌≡◌, ℕ, List, [], ◌∷◌, ◌++◌};
ghost use Rattle.script.specs.declared.word.Word.{Word};
ghost use Rattle.script.specs.Taken.{LineTaken, at_most, vec_of};

use super::Line;
use crate::word::Word;
use arrayvec::ArrayVec;

impl Line {
    pub fn new() -> Line
        ensures { LineTaken result [] }
    {
        Line {
            ended: Some(ArrayVec::new()),
            last: Word::new(),
        }
    }

    // One byte more, other than the newline.
    pub fn push(&mut self, byte: u8)
        ensures { (xs : List ℕ) → LineTaken self.old xs → LineTaken self.new (xs ++ (byte ∷ [])) }
    {
        if byte == b' ' {
            self.next_word();
        } else {
            self.last.push(byte);
        }
    }

    // A space: exactly one stands between two words, and no command has more than four.
    fn next_word(&mut self)
        ensures { (xs : List ℕ) → LineTaken self.old xs → LineTaken self.new (xs ++ (32 ∷ [])) }
    {
        self.keep_word();
        self.last = Word::new();
    }

    // The last word is one that a space has ended.
    fn keep_word(&mut self)
        ensures { (ws : List Word) → self.old.ended ≡ at_most 3 vec_of ws → self.new.ended ≡ at_most 3 vec_of (ws ++ (self.old.last ∷ [])) }
    {
        if let Some(ended) = &mut self.ended {
            if ended.try_push(self.last).is_err() {
                self.ended = None;
            }
        }
    }
}
