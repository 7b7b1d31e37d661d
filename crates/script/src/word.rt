// A word of a line, taken in byte by byte: a name of the language, a number, or neither.
// Contracts speak of all texts that it may be: a word that is too long for a name may be many.
ghost use Rattle.std.specs.Prelude.{◌≡◌, ℕ, ◌<◌, List, [], ◌∷◌, ◌++◌, length, ◌==◌, MatchOption};
ghost use Rattle.script.specs.Grammar.{value_of, number_of};
ghost use Rattle.script.specs.Taken.{WordTaken};

// No name of the language is longer.
const LONGEST: usize = 8;

#[derive(Clone, Copy)]
pub struct Word {
    // its bytes, unless it is too long to be a name
    name: Option<Name>,
    // what it comes to as a decimal number below 2^32, if it is one
    value: Option<u32>,
}

// Not an `ArrayVec`, which isn't `Copy`, as a word is.
#[derive(Clone, Copy)]
struct Name {
    // its bytes, and zeros after them
    bytes: [u8; 8],
    len: usize,
}

impl Default for Word {
    ghost is_default = { λ w. WordTaken w [] };

    fn default() -> Word {
        Word::new()
    }
}

// Where a name is looked at, it is by a match: with `as_ref` and a closure the proofs didn't close.
impl Word {
    pub fn new() -> Word
        ensures { WordTaken result [] }
    {
        Word {
            name: Some(Name {
                bytes: [0; 8],
                len: 0,
            }),
            value: Some(0),
        }
    }

    pub fn is_empty(&self) -> bool
        ensures { (xs : List ℕ) → WordTaken self.now xs → result ≡ (length xs == 0) }
    {
        match &self.name {
            Some(name) => name.len == 0,
            None => false,
        }
    }

    // One byte more.
    pub fn push(&mut self, byte: u8)
        ensures { (xs : List ℕ) → WordTaken self.old xs → WordTaken self.new (xs ++ (byte ∷ [])) }
    {
        self.value = one_digit_more(self.value, byte);
        if let Some(name) = &mut self.name {
            if name.len < LONGEST {
                name.bytes[name.len] = byte;
                name.len += 1;
            } else {
                self.name = None;
            }
        }
    }

    // Its bytes, unless it is too long to be a name.
    pub fn name(&self) -> Option<&[u8]>
        ensures { (xs : List ℕ) → WordTaken self.now xs → MatchOption result (8 < length xs) (λ name. name.now ≡ xs) }
    {
        match &self.name {
            Some(name) => name.bytes.get(..name.len),
            None => None,
        }
    }

    // The number that it is, if it is one below 2^32; leading zeros are allowed.
    pub fn number(&self) -> Option<u32>
        ensures { (xs : List ℕ) → WordTaken self.now xs → result ≡ number_of xs }
    {
        if self.is_empty() {
            return None;
        }
        self.value
    }
}

// The number so far with a digit after it, unless that isn't a digit, or is too much.
fn one_digit_more(value: Option<u32>, byte: u8) -> Option<u32>
    ensures { (xs : List ℕ) → value ≡ value_of xs → result ≡ value_of (xs ++ (byte ∷ [])) }
{
    let digit = char::from(byte).to_digit(10)?;
    value?.checked_mul(10)?.checked_add(digit)
}
