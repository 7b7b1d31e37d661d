// Plays the script on standard input, and writes the answers to standard output.
#![tactic(auto)]

use console::input::each_piece;
use console::output::Output;
use player::Player;

fn main(rt: HostRuntime) -> anyhow::Result<()> {
    play(&rt)
}

fn play(rt: &HostRuntime) -> anyhow::Result<()> {
    let mut output = Output(rt);
    let mut player = Player::new();
    each_piece(&mut rt.stdin(), |script| {
        Ok(player.feed(script, &mut output)?)
    })?;
    Ok(player.finish(&mut output)?)
}
