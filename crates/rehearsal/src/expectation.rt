// What a script is to be answered, in text: a line stands for itself, but for two forms. `ticks 400` stands for so many
// lines that each tell of a tick, whichever; a word `100~3` stands for a number that is at most 3 off 100.
ghost use Rattle.std.specs.Prelude.{◌≡◌};
ghost use Rattle.script.specs.Grammar.{number_of};
ghost use Rattle.rehearsal.specs.Cuts.{cut, left};
ghost use Rattle.rehearsal.specs.Expected.{Found, after_ticks, first_apart, following, is_near, is_tick, only_if_left, ticks_of, word_meets, words_meet};

use crate::parts::Parts;
use script::word::Word;

// The number of the first line of what is expected that the transcript doesn't meet, if any; one past the last where
// the transcript goes on.
pub fn first_difference(expected: &[u8], transcript: &[u8]) -> Option<usize>
    ensures { result ≡ first_apart 1 (cut 10 expected.now) (cut 10 transcript.now) }
{
    let mut lines = Parts::new(transcript, b'\n');
    // Counted beside, since the number after the last line is an answer too.
    let mut number: usize = 1;
    for want in Parts::new(expected, b'\n') {
        if !met(want, &mut lines) {
            return Some(number);
        }
        number = number.saturating_add(1);
    }
    only_if_left(number, &mut lines)
}

// This number, where lines are left.
fn only_if_left(number: usize, lines: &mut Parts<'_>) -> Option<usize>
    ensures { result ≡ only_if_left number (left lines.old) }
{
    lines.next().map(|_| number)
}

// Whether the next lines are what this one stands for.
fn met(want: &[u8], lines: &mut Parts<'_>) -> bool
    ensures { Found result (following want.now (left lines.old)) (left lines.new) }
{
    match tick_lines(want) {
        Some(many) => are_ticks(many, lines),
        None => lines.next().is_some_and(|line| meets(want, line)),
    }
}

fn are_ticks(many: u32, lines: &mut Parts<'_>) -> bool
    ensures { Found result (after_ticks many (left lines.old)) (left lines.new) }
{
    for _k in 0..many {
        if !lines.next().is_some_and(is_tick) {
            return false;
        }
    }
    true
}

// How many lines of ticks it stands for, unless it stands for itself.
fn tick_lines(want: &[u8]) -> Option<u32>
    ensures { result ≡ ticks_of (cut 32 want.now) }
{
    let mut words = Parts::new(want, b' ');
    let word = words.next()?;
    let many = words.next()?;
    if word == b"ticks".as_slice() {
        number(many)
    } else {
        None
    }
}

// `-`, or a line that begins with a number.
fn is_tick(line: &[u8]) -> bool
    ensures { result ≡ is_tick line.now }
{
    let word = Parts::new(line, b' ').next();
    word.is_some_and(|word| word == b"-".as_slice() || number(word).is_some())
}

// Word by word, within the tolerance where there is one.
fn meets(want: &[u8], line: &[u8]) -> bool
    ensures { result ≡ words_meet (cut 32 want.now) (cut 32 line.now) }
{
    let mut words = Parts::new(line, b' ');
    for word in Parts::new(want, b' ') {
        if !words.next().is_some_and(|got| word_meets(word, got)) {
            return false;
        }
    }
    words.next().is_none()
}

fn word_meets(want: &[u8], got: &[u8]) -> bool
    ensures { result ≡ word_meets want.now got.now }
{
    let mut numbers = Parts::new(want, b'~');
    match (numbers.next(), numbers.next()) {
        (Some(middle), Some(off)) => is_near(number(got), number(middle), number(off)),
        _ => want == got,
    }
}

// Whether the number is at most so far off the middle; what isn't a number is near to none.
fn is_near(n: Option<u32>, middle: Option<u32>, off: Option<u32>) -> bool
    ensures { result ≡ is_near n middle off }
{
    let (Some(n), Some(middle), Some(off)) = (n, middle, off) else {
        return false;
    };
    n.abs_diff(middle) <= off
}

// The number that it is, if it is one below 2^32.
fn number(text: &[u8]) -> Option<u32>
    ensures { result ≡ number_of text.now }
{
    let mut word = Word::new();
    for byte in text {
        word.push(*byte);
    }
    word.number()
}
