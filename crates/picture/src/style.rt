// The looks of the picture. The kinds differ in lightness too, so that nobody has to tell them apart by colour alone.
use crate::pen::Pen;
use layout::{LEFT, Scale};
use script::sink::Sink;
use std::fmt;
use std::fmt::Write;

// Boxes: full where a task has the tick, pale where it wants one, hollow where it runs in another's.
const KINDS: [&str; 4] = [
    ".r{fill:#24537f}.x{fill:#d9902f}.f{fill:#7fb5a3}",
    ".rw{fill:#d7e1eb}.xw{fill:#f8ebd3}.fw{fill:#e6f1ed}",
    ".o{fill:#fff;stroke-width:1.5}.ro{stroke:#24537f}.xo{stroke:#b3701a}.fo{stroke:#4f8d79}",
    ".s{fill:#f1f0ec}.k{fill:url(#k)}.i{fill:url(#i)}.h{fill:url(#h)}.t{fill:url(#t)}.m{fill:#5d5a66}",
];

// Brackets, dots, waiting, the grid.
const LINES: [&str; 4] = [
    ".w{fill:none;stroke:#1d1d24;stroke-width:1.5}.b{stroke:#8a8791;stroke-dasharray:3 2.5}",
    ".d{fill:#1d1d24}.e{fill:#fff;stroke:#8a8791;stroke-width:1.5}",
    ".v{fill:none;stroke:#7b4a6a;stroke-width:2;stroke-dasharray:2 3}",
    ".g{fill:none;stroke:#1d1d24;stroke-width:1}.u{fill:none;stroke:#e6e4de;stroke-width:1}",
];

const LETTERS: [&str; 5] = [
    "text{fill:#1d1d24}.T{font-size:20px;font-weight:bold}.S{font-size:11px;fill:#55525c}",
    ".p{font-weight:bold;text-anchor:end}.y{fill:#55525c;font-size:10px;text-anchor:middle}",
    ".n,.a{font-size:10px;text-anchor:middle}.n{font-weight:bold;paint-order:stroke;stroke:#fff;stroke-width:3px}.ns{font-size:9px;stroke-width:2.5px}.a{fill:#fff;font-size:9px}",
    ".q{font-size:9px;text-anchor:middle}.c{font-style:italic;text-anchor:start}.P{fill:#fff}",
    ".z{font-size:10px;font-weight:bold;fill:#a3262a}.Z{fill:none;stroke:#a3262a;stroke-width:2}",
];

// Hatching, nobody's ticks, a kept share.
const PATTERNS: [&str; 3] = [
    "<defs><pattern id=\"h\" width=\"5\" height=\"5\" patternUnits=\"userSpaceOnUse\" patternTransform=\"rotate(45)\"><path d=\"M1 0V5\" stroke=\"#fff\" stroke-width=\"2\"/></pattern>",
    "<pattern id=\"i\" width=\"4\" height=\"4\" patternUnits=\"userSpaceOnUse\"><circle cx=\"1.5\" cy=\"1.5\" r=\"0.9\" fill=\"#8a8791\"/></pattern>",
    "<pattern id=\"k\" width=\"6\" height=\"6\" patternUnits=\"userSpaceOnUse\" patternTransform=\"rotate(45)\"><path d=\"M1 0V6\" stroke=\"#dedbd3\" stroke-width=\"2\"/></pattern>",
];

impl<S: Sink> Pen<'_, S> {
    pub fn style(&mut self, scale: Scale) -> fmt::Result {
        writeln!(self, "<style>")?;
        self.lines(&KINDS)?;
        self.lines(&LINES)?;
        self.lines(&LETTERS)?;
        writeln!(self, "</style>")?;
        self.lines(&PATTERNS)?;
        self.hairlines(scale.tick())
    }

    fn lines(&mut self, lines: &[&str]) -> fmt::Result {
        for line in lines {
            writeln!(self, "{line}")?;
        }
        Ok(())
    }

    // The hairlines between ticks, which are as wide as the scale says.
    fn hairlines(&mut self, tick: u32) -> fmt::Result {
        writeln!(
            self,
            "<pattern id=\"t\" x=\"{LEFT}\" width=\"{tick}\" height=\"8\" patternUnits=\"userSpaceOnUse\"><path d=\"M0 0V8\" stroke=\"#fff\" stroke-width=\"1.4\"/></pattern></defs>"
        )
    }
}
