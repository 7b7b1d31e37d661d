// What may stand for a step in a script, and for an entry in a log: the step and the entry themselves, or numbers that say them.
ghost use Rattle.std.specs.Prelude.{◌≡◌};

use crate::entry::{Entry, Step};

// Stands for a step, and is converted into that.
pub trait AsStep: Copy + Into<Step> {
    ghost use Rattle.memory.specs.declared.entry.Step.{Step};

    ghost step: { Self → Step };

    ghost says: { (w : Self) (s : Step) → Self.converts w s → s ≡ step w };
}

// Stands for an entry, and is made from one that it then stands for.
pub trait AsEntry: Copy + From<Entry> {
    ghost use Rattle.memory.specs.declared.entry.Entry.{Entry};

    ghost entry: { Self → Entry };

    ghost says: { (e : Entry) (w : Self) → Self.from_gives e w → entry w ≡ e };
}

impl AsStep for Step {
    ghost step = { λ s. s };

    ghost says = { λ w s is. is };
}

impl AsEntry for Entry {
    ghost entry = { λ e. e };

    ghost says = { λ e w is. is };
}
