// A text in parts: its lines, the words of a line, the numbers of a word.
ghost use Rattle.std.specs.Prelude.{◌≡◌, ◌∷◌};
ghost use Rattle.std.specs.Iterator.{YieldsFirstRef, item_count};
ghost use Rattle.rehearsal.specs.Cuts.{cut, left_of, left};

// Gives out one part after another: what lies between the bytes that part it.
#[derive(Drop)]
pub struct Parts<'a> {
    // what wasn't given out yet, if there is a part left
    rest: Option<&'a [u8]>,
    by: u8,
}

impl<'a> Parts<'a> {
    pub fn new(text: &'a [u8], by: u8) -> Parts<'a>
        ensures { left result ≡ cut by text.now }
    {
        Parts {
            rest: Some(text),
            by,
        }
    }
}

impl<'a> Iterator for Parts<'a> {
    type Item = &'a [u8];

    ghost next_gives = { YieldsFirstRef left };

    ghost remaining = { item_count left };

    fn next(&mut self) -> Option<&'a [u8]> {
        let (part, rest) = split(self.rest?, self.by);
        self.rest = rest;
        Some(part)
    }
}

// The first part, and what comes after it, if there is a further one.
fn split(text: &[u8], by: u8) -> (&[u8], Option<&[u8]>)
    ensures { cut by text.now ≡ result.0.now ∷ left_of by result.1 }
{
    match text.iter().position(|byte| *byte == by) {
        Some(end) => (&text[..end], Some(&text[end + 1..])),
        None => (text, None),
    }
}
