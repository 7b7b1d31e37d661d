// A script in a folder of data, and what it is to be answered.
ghost use Rattle.std.specs.Prelude.{◌≡◌, ℕ, List, ◌++◌, IfOk};
ghost use Rattle.player.specs.Evening.{Allowed};
ghost use Rattle.rehearsal.specs.Cuts.{cut};
ghost use Rattle.rehearsal.specs.Expected.{first_apart};

use crate::expectation::first_difference;
use crate::room::Room;
use anyhow::anyhow;
use console::input::each_piece;
use player::play;
use script::sink::Stopped;
use std::fs::File;

pub struct Scene {
    pub title: &'static str,
    pub script: &'static str,
    pub expected: &'static str,
}

impl Scene {
    // Says whether the script, played from an empty scheduler, is answered as expected. It only reads and prints, of which no
    // clause can say anything.
    pub fn rehearse(&self, rt: &HostRuntime) -> anyhow::Result<()> {
        let mut script = Room::new();
        read(rt, self.script, &mut script)?;
        // Before the expected text is looked at: that a transcript is too long is said first.
        let mut written = Room::new();
        write_answers(script.bytes(), &mut written).map_err(|_| anyhow!(
            "the transcript is too long"
        ))?;
        let mut expected = Room::new();
        read(rt, self.expected, &mut expected)?;
        let title = self.title;
        let file = self.expected;
        match first_difference(expected.bytes(), written.bytes()) {
            None => println!(rt; "{title}: as the rules say")?,
            Some(line) => println!(rt;
                "{title}: other than the rules say, at line {line} of {file}"
            )?,
        }
        Ok(())
    }
}

// The number of the first line of what is expected that isn't met as the script is played, if any; `Err` where there is
// no room for what is written.
pub fn first_line_apart(script: &[u8], expected: &[u8]) -> Result<Option<usize>, Stopped>
    ensures { IfOk result (λ line. (written : List ℕ) × Allowed script.now written × (line ≡ first_apart 1 (cut 10 expected.now) (cut 10 written))) }
{
    let mut written = Room::new();
    write_answers(script, &mut written)?;
    Ok(first_difference(expected, written.bytes()))
}

// Writes behind what is there what the player writes for the script; `Err` where there is no room for it.
fn write_answers(script: &[u8], written: &mut Room) -> Result<(), Stopped>
    ensures { IfOk result (λ _. (text : List ℕ) × Allowed script.now text × (written.new.text.items ≡ written.old.text.items ++ text)) }
{
    // By `?`: where what `play` gives is handed on as it is, the proof didn't close.
    play(script, written)?;
    Ok(())
}

fn read(rt: &HostRuntime, name: &str, text: &mut Room) -> anyhow::Result<()> {
    each_piece(&mut File::open(rt, name)?, |piece| Ok(text.push(piece)?))
}
