// A picture of an evening: a script is played, and what was seen is drawn as SVG.
#![tactic(auto)]

mod bands;
mod boxes;
mod brackets;
mod canvas;
mod drawing;
mod frame;
mod ground;
mod ink;
mod kinds;
mod lanes;
mod legend;
mod locking;
mod moment;
mod naming;
mod notes;
mod pen;
mod runs;
mod session;
mod shapes;
mod sheet;
mod style;
mod survey;

use bands::Bands;
use canvas::Canvas;
use drawing::lay;
use ground::Ground;
use ink::Ink;
use notes::Notes;
use script::sink::{Sink, Stopped};
use session::play;
use std::fmt;
use survey::Tally;

// Draws the evening that a script makes. It is played once to be counted and once to be laid out, and then once for each
// layer of the picture, so that nothing has to be kept of it but what there is at a tick.
pub fn draw<S: Sink>(script: &[u8], out: &mut S) -> Result<(), Stopped> {
    let mut tally = Tally::default();
    play(script, &mut tally);
    let mut bands = Bands::new(tally);
    play(script, &mut bands);
    let mut canvas = Canvas::new(bands.sheet(), out);
    // `map_err` here and in the pen, since `fmt::Error` and `Stopped` are other crates' types.
    picture(script, &mut canvas).map_err(|_| Stopped)?;
    canvas.pen.hand_on()
}

fn picture<S: Sink>(script: &[u8], canvas: &mut Canvas<S>) -> fmt::Result {
    canvas.open()?;
    lay(script, Ground::new(), canvas)?;
    lay(script, Ink::new(), canvas)?;
    lay(script, Notes::new(), canvas)?;
    canvas.close()
}
