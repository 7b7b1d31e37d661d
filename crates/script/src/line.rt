// A line of a script, taken in byte by byte, however long it is.
// Contracts speak of all texts that it may be: what can't be a command any more isn't kept.
use crate::word::Word;
use arrayvec::ArrayVec;

mod reading;
mod taking;

#[derive(Drop)]
pub struct Line {
    // the words that a space has ended, unless they are too many for a command
    ended: Option<ArrayVec<Word, 3>>,
    // the word that is being taken in
    last: Word,
}
