// The functions that `export_c` exports.
// A crate is a library or a static library, so those stand once more with the names that C calls. What plays is `play_into`, or
// `hours` where that is asked for, each after the same test.
ghost use Rattle.std.specs.Prelude.{◌≡◌, ◌⊎◌};
ghost use Rattle.export.specs.Kept.{AllGood, FirstBad, Kept, Refused};
ghost use Rattle.export.specs.Transcribed.{Transcribed};

use crate::accounted::Accounted;
use crate::wire::{WireEntry, WireStep};
use memory::lent::LentRecorder;
use memory::play::play_into;
use player::play;
use sched::hours;
use script::sink::Stopped;

// What is answered in place of a count: the transcript has no room, or a step isn't one. A number, for C's sake.
const REFUSED: u64 = u64::MAX;

// `as` from a length, for which the library has no `From`, loses nothing.

// Plays the script as the program does, into the transcript from its start. How many bytes were written, or `REFUSED` if there
// is no room for all of them: then the transcript holds no more than a beginning, which no clause says.
pub fn wendrifoy_play(script: &[u8], transcript: &mut [u8]) -> u64
    ensures { (result ≡ 18446744073709551615) ⊎ Transcribed script.now transcript.old transcript.new result }
{
    let mut out = Accounted::new(transcript);
    // A match, since with `map_or` the proof didn't close.
    match play(script, &mut out) {
        Ok(()) => out.len() as u64,
        Err(Stopped) => REFUSED,
    }
}

// The number of the first step that isn't a good one, from 0; if all are, how many there are.
pub fn wendrifoy_first_bad(steps: &[WireStep]) -> u64
    ensures { FirstBad steps.now result }
{
    first_bad(steps) as u64
}

// The hours of these steps, as far as there is room in the log. How many entries were written from its start, or `REFUSED` if one
// of the steps isn't good: then nothing is played.
#[tactic(auto, using(crate::proofs::Good::refused, crate::proofs::Good::all_good))]
pub fn wendrifoy_hours(steps: &[WireStep], log: &mut [WireEntry]) -> u64
    ensures { Refused steps.now log.old log.new result ⊎ AllGood steps.now }
{
    if first_bad(steps) < steps.len() {
        return REFUSED;
    }
    run(steps, log) as u64
}

fn run<'a>(steps: &'a [WireStep], log: &'a mut [WireEntry]) -> usize {
    let many = steps.len() as u64;
    let mut w = LentRecorder::new(steps, log);
    hours(&mut w, many);
    w.len()
}

// The same by a loop of its own, which is proved to leave a legal run in the log.
#[tactic(auto, using(crate::proofs::Good::refused, crate::proofs::Good::all_good))]
pub fn wendrifoy_record(steps: &[WireStep], log: &mut [WireEntry]) -> u64
    ensures { Refused steps.now log.old log.new result ⊎ (AllGood steps.now × Kept steps.now log.old log.new result) }
{
    if first_bad(steps) < steps.len() {
        return REFUSED;
    }
    play_into(steps, log) as u64
}

fn first_bad(steps: &[WireStep]) -> usize
    ensures { FirstBad steps.now result }
{
    steps
        .iter()
        .position(|step| !step.is_good())
        .unwrap_or(steps.len())
}
