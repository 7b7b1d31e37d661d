// Where a tick is drawn: how wide it is, in which band, how far to the right. Ticks are wrapped into bands, each 960 wide,
// so that a long script needs no wider page.
// A column is any number, and what is said of one is said of those that a band has: a type for it would ask callers for a test.
#![tactic(auto)]

ghost use Rattle.std.specs.Prelude.{◌≡◌, ◌+◌, ◌-◌, ◌*◌, ◌<◌, ◌≤◌};
ghost use Rattle.layout.specs.Layout.{scale_of, tick_width, per_band};

// Where time begins; the names of the rows stand to the left of it.
pub const LEFT: u32 = 184;

// No more ticks than these are drawn.
pub const MOST_TICKS: u32 = 4000;

// No more bands than these are needed for them.
pub const MOST_BANDS: usize = 25;

// The longer the evening, the narrower a tick.
#[derive(Clone, Copy)]
pub enum Scale {
    Wide,
    Middle,
    Narrow,
    Fine,
}

impl Scale {
    // No `From`: a scale is chosen for so many ticks, they aren't converted.
    pub fn of(ticks: u32) -> Scale
        ensures { result ≡ scale_of ticks }
    {
        match ticks {
            ..=40 => Scale::Wide,
            ..=160 => Scale::Middle,
            ..=640 => Scale::Narrow,
            _ => Scale::Fine,
        }
    }

    // How wide a tick is.
    pub fn tick(self) -> u32
        ensures value { result ≡ tick_width self }
        ensures least { 6 ≤ result }
        ensures most { result ≤ 24 }
    {
        match self {
            Scale::Wide => 24,
            Scale::Middle => 12,
            Scale::Narrow => 8,
            Scale::Fine => 6,
        }
    }

    // How many ticks there are in a band: they fill its time.
    pub fn per_band(self) -> u32
        ensures value { result ≡ per_band self }
        ensures least { 40 ≤ result }
        ensures most { result ≤ 160 }
        ensures filled { result * tick_width self ≡ 960 }
    {
        match self {
            Scale::Wide => 40,
            Scale::Middle => 80,
            Scale::Narrow => 120,
            Scale::Fine => 160,
        }
    }

    // Every so many ticks have their number written.
    pub fn numbered(self) -> u32
        ensures { 1 ≤ result }
    {
        match self {
            Scale::Wide => 1,
            Scale::Middle => 5,
            Scale::Narrow | Scale::Fine => 10,
        }
    }

    // The bands are filled one after the other.
    pub fn spot(self, tick: u32) -> Spot
        ensures place { result.band * per_band self + result.column ≡ tick }
        ensures within { result.column < per_band self }
    {
        Spot {
            band: tick / self.per_band(),
            column: tick % self.per_band(),
        }
    }

    // The left edge of a column.
    pub fn x(self, column: u32) -> u32
        ensures { column ≤ 160 → result ≡ 184 + column * tick_width self }
    {
        LEFT.saturating_add(self.width(column))
    }

    // How wide so many ticks are.
    pub fn width(self, ticks: u32) -> u32
        ensures value { ticks ≤ 160 → result ≡ ticks * tick_width self }
        ensures most { ticks ≤ 160 → result ≤ 3840 }
    {
        ticks.saturating_mul(self.tick())
    }

    pub fn row(self) -> Row {
        match self {
            Scale::Wide | Scale::Middle => LARGE,
            Scale::Narrow | Scale::Fine => SMALL,
        }
    }
}

// A band, and how many ticks of it come before.
#[derive(Clone, Copy)]
pub struct Spot {
    pub band: u32,
    pub column: u32,
}

impl Spot {
    // The column after it, in the same band.
    pub fn after(self) -> Spot
        ensures band { result.band ≡ self.band }
        ensures column { self.column ≤ 160 → result.column ≡ self.column + 1 }
    {
        let column = self.column.saturating_add(1);
        Spot { column, ..self }
    }
}

// So many columns of a band.
#[derive(Clone, Copy)]
pub struct Stretch {
    pub band: u32,
    pub from: u32,
    pub to: u32,
}

impl Stretch {
    // From this column up to where a spot begins.
    pub fn until(from: u32, to: Spot) -> Stretch
        ensures band { result.band ≡ to.band }
        ensures ends { (result.from ≡ from) × (result.to ≡ to.column) }
    {
        Stretch {
            band: to.band,
            from,
            to: to.column,
        }
    }

    pub fn start(self) -> Spot
        ensures band { result.band ≡ self.band }
        ensures column { result.column ≡ self.from }
    {
        Spot {
            band: self.band,
            column: self.from,
        }
    }

    pub fn x(self, scale: Scale) -> u32
        ensures { self.from ≤ 160 → result ≡ 184 + self.from * tick_width scale }
    {
        scale.x(self.from)
    }

    pub fn ticks(self) -> u32
        ensures { result ≡ self.to - self.from }
    {
        self.to.saturating_sub(self.from)
    }

    pub fn width(self, scale: Scale) -> u32
        ensures { self.to ≤ 160 → result ≡ (self.to - self.from) * tick_width scale }
    {
        scale.width(self.ticks())
    }

    pub fn middle(self, scale: Scale) -> u32 {
        self.x(scale).saturating_add(self.width(scale) / 2)
    }
}

// What is where in a task's row, from its top.
#[derive(Clone, Copy)]
pub struct Row {
    pub height: u32,
    pub bracket: u32,
    pub foot: u32,
    pub boxes: u32,
    pub depth: u32,
    pub waiting: u32,
    // how large the dot at the end of a bracket is
    pub dot: u32,
    // of a lock's row
    pub lock: u32,
    pub small: bool,
}

const LARGE: Row = Row {
    height: 36,
    bracket: 4,
    foot: 5,
    boxes: 11,
    depth: 15,
    waiting: 31,
    dot: 3,
    lock: 18,
    small: false,
};

const SMALL: Row = Row {
    height: 28,
    bracket: 4,
    foot: 3,
    boxes: 8,
    depth: 11,
    waiting: 24,
    dot: 2,
    lock: 15,
    small: true,
};
