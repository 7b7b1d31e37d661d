// The functions that C and Rust may call, by their names: each is that of the crate `export`, with its clauses.
// They stand apart from it since a crate is a library or a static library.
#![tactic(auto)]

ghost use Rattle.std.specs.Prelude.{◌≡◌, ◌⊎◌};
ghost use Rattle.export.specs.Kept.{AllGood, FirstBad, Kept, Refused};
ghost use Rattle.export.specs.Transcribed.{Transcribed};

use export::exports;
use export::wire::{WireEntry, WireStep};

// Plays the script as the program does, into the transcript from its start. How many bytes were written, or `u64::MAX` if there
// is no room for all of them: then the transcript holds no more than a beginning, which no clause says.
#[unsafe(no_mangle)]
pub extern "C" fn wendrifoy_play(script: &[u8], transcript: &mut [u8]) -> u64
    ensures { (result ≡ 18446744073709551615) ⊎ Transcribed script.now transcript.old transcript.new result }
{
    exports::wendrifoy_play(script, transcript)
}

// The number of the first step that isn't a good one, from 0; if all are, how many there are.
#[unsafe(no_mangle)]
pub extern "C" fn wendrifoy_first_bad(steps: &[WireStep]) -> u64
    ensures { FirstBad steps.now result }
{
    exports::wendrifoy_first_bad(steps)
}

// The hours of these steps, as far as there is room in the log. How many entries were written from its start, or `u64::MAX` if one
// of the steps isn't good: then nothing is played.
#[unsafe(no_mangle)]
pub extern "C" fn wendrifoy_hours(steps: &[WireStep], log: &mut [WireEntry]) -> u64
    ensures { Refused steps.now log.old log.new result ⊎ AllGood steps.now }
{
    exports::wendrifoy_hours(steps, log)
}

// The same by a loop of its own, which is proved to leave a legal run in the log.
#[unsafe(no_mangle)]
pub extern "C" fn wendrifoy_record(steps: &[WireStep], log: &mut [WireEntry]) -> u64
    ensures { Refused steps.now log.old log.new result ⊎ (AllGood steps.now × Kept steps.now log.old log.new result) }
{
    exports::wendrifoy_record(steps, log)
}
