// Draws the evening of the script on standard input, as SVG on standard output.
#![tactic(auto)]

use anyhow::anyhow;
use arrayvec::ArrayVec;
use console::input::each_piece;
use console::output::Output;
use picture::draw;

// No script is longer.
const MOST: usize = 1_048_576;

fn main(rt: HostRuntime) -> anyhow::Result<()> {
    chart(&rt)
}

fn chart(rt: &HostRuntime) -> anyhow::Result<()> {
    let mut script = ArrayVec::<u8, MOST>::new();
    each_piece(&mut rt.stdin(), |piece| {
        script
            .try_extend_from_slice(piece)
            .map_err(|_| anyhow!("the script is longer than 1 MiB"))
    })?;
    draw(script.as_slice(), &mut Output(rt)).map_err(|_| anyhow!("the picture can't be written"))
}
