// Plays each script of the data folder from an empty scheduler, and compares what it writes with what the rules say.
// The table says which.
#![tactic(auto)]

mod expectation;

use anyhow::anyhow;
use console::input::each_piece;
use expectation::first_difference;
use player::Player;
use rehearsal::room::Room;
use rehearsal::scene::Scene;
use std::fs::File;

// First what is answered, and what is turned away; then whose the ticks are; last what is no command.
static SCENES: [Scene; 10] = [
    Scene {
        title: "refusals of bad kinds",
        script: "bad-kinds.script",
        expected: "bad-kinds.expected",
    },
    Scene {
        title: "a share that fits and one that doesn't",
        script: "shares.script",
        expected: "shares.expected",
    },
    Scene {
        title: "locking twice",
        script: "locking-twice.script",
        expected: "locking-twice.expected",
    },
    Scene {
        title: "a ring of two",
        script: "ring-of-two.script",
        expected: "ring-of-two.expected",
    },
    Scene {
        title: "reserved beside fixed",
        script: "reserved-and-fixed.script",
        expected: "reserved-and-fixed.expected",
    },
    Scene {
        title: "fair by weight",
        script: "fair-by-weight.script",
        expected: "fair-by-weight.expected",
    },
    Scene {
        title: "fair after a long sleep",
        script: "fair-after-sleep.script",
        expected: "fair-after-sleep.expected",
    },
    Scene {
        title: "lending to whoever has the lock",
        script: "lending.script",
        expected: "lending.expected",
    },
    Scene {
        title: "a share kept after its task ended",
        script: "kept-share.script",
        expected: "kept-share.expected",
    },
    Scene {
        title: "lines that are no commands",
        script: "malformed.script",
        expected: "malformed.expected",
    },
];

fn main(rt: HostRuntime) -> anyhow::Result<()> {
    for scene in &SCENES {
        compare(&rt, scene)?;
    }
    Ok(())
}

// Says whether the script is answered as expected.
fn compare(rt: &HostRuntime, scene: &Scene) -> anyhow::Result<()> {
    let mut written = Room::new();
    play(rt, scene.script, &mut written)?;
    let mut expected = Room::new();
    read(rt, scene.expected, &mut expected)?;
    let expected = std::str::from_utf8(expected.bytes())?;
    let written = std::str::from_utf8(written.bytes())?;
    let title = scene.title;
    let file = scene.expected;
    match first_difference(expected, written) {
        None => println!(rt; "{title}: as the rules say")?,
        Some(line) => println!(rt; "{title}: other than the rules say, at line {line} of {file}")?,
    }
    Ok(())
}

// Writes what the script is answered. It is played as it is read, so that it may have any length.
fn play(rt: &HostRuntime, name: &str, written: &mut Room) -> anyhow::Result<()> {
    let mut player = Player::new();
    each_piece(&mut File::open(rt, name)?, |piece| {
        player
            .feed(piece, written)
            .map_err(|_| anyhow!("the transcript is too long"))
    })?;
    player
        .finish(written)
        .map_err(|_| anyhow!("the transcript is too long"))
}

fn read(rt: &HostRuntime, name: &str, text: &mut Room) -> anyhow::Result<()> {
    each_piece(&mut File::open(rt, name)?, |piece| {
        text.push(piece)
            .map_err(|_| anyhow!("the expected text is too long"))
    })
}
