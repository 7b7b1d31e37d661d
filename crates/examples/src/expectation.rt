// What a script is to be answered, in text: a line stands for itself, but for two forms. `ticks 400` stands for so many
// lines that each tell of a tick, whichever; a word `100~3` stands for a number that is at most 3 off 100.
// It goes by str's own lines, words and numbers, where `rehearsal` goes by bytes: a last newline may be missing here, and
// numbers may have 64 bits.
use std::str::Lines;

// The number of the first line of what is expected that the transcript doesn't meet, if any; one past the last where
// the transcript goes on.
pub fn first_difference(expected: &str, transcript: &str) -> Option<usize> {
    let mut lines = transcript.lines();
    // Counted beside, since the number after the last line is an answer too.
    let mut number: usize = 1;
    for want in expected.lines() {
        if !met(want, &mut lines) {
            return Some(number);
        }
        number = number.saturating_add(1);
    }
    lines.next().map(|_| number)
}

// Whether the next lines are what this one stands for.
fn met(want: &str, lines: &mut Lines<'_>) -> bool {
    match tick_lines(want) {
        0 => lines.next().is_some_and(|line| meets(want, line)),
        many => (0..many).all(|_| lines.next().is_some_and(is_tick)),
    }
}

// How many lines of ticks it stands for, 0 for a line that stands for itself.
fn tick_lines(want: &str) -> u32 {
    want.strip_prefix("ticks ")
        .and_then(|many| many.parse().ok())
        .unwrap_or(0)
}

// `-`, or a line that begins with a digit.
fn is_tick(line: &str) -> bool {
    line == "-"
        || line
            .bytes()
            .next()
            .is_some_and(|byte| byte.is_ascii_digit())
}

// Word by word, within the tolerance where there is one.
fn meets(want: &str, line: &str) -> bool {
    let mut words = line.split(' ');
    for word in want.split(' ') {
        if !words.next().is_some_and(|got| word_meets(word, got)) {
            return false;
        }
    }
    words.next().is_none()
}

fn word_meets(want: &str, got: &str) -> bool {
    match want.split_once('~') {
        Some((middle, off)) => is_near(got, middle, off),
        None => want == got,
    }
}

// Whether the number is at most so far off the middle; what isn't a number is near to none.
fn is_near(got: &str, middle: &str, off: &str) -> bool {
    let (Ok(got), Ok(middle), Ok(off)) = (
        got.parse::<u64>(),
        middle.parse::<u64>(),
        off.parse::<u64>(),
    ) else {
        return false;
    };
    got.abs_diff(middle) <= off
}
