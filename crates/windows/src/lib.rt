// The life of a reservation's window: it opens, may stop being whole, counts the ticks that were had of it, and is over.
#![tactic(auto)]

ghost use Rattle.std.specs.Prelude.{◌≡◌};
ghost use Rattle.windows.specs.Life.{life, open_with, open_kept, passed, got_of, is_open, goes_before};

pub mod laws;
mod span;

use quantities::promises::Reservation;
pub use span::Span;

// The window of a reservation, unless its task hasn't wanted a tick since the last was over.
#[derive(Clone, Copy, PartialEq, Eq, Debug)]
pub struct Window {
    pub span: Option<Span>,
}

impl Window {
    // A tick begins for a task that has the reservation: if it wants the tick, a window opens where there is none;
    // if it doesn't, the window isn't whole any more.
    pub fn begin(self, wants: bool, reservation: Reservation) -> Window
        ensures { life result ≡ open_with wants reservation.period (life self) }
    {
        // A match, since its three cases are those of the rules.
        let span = match self.span {
            Some(span) => Some(span.whole_if(wants)),
            None if wants => Some(Span::new(reservation)),
            None => None,
        };
        Window { span }
    }

    // A tick begins for the share of a task that is gone: its window isn't whole any more.
    pub fn begin_kept(self) -> Window
        ensures { life result ≡ open_kept (life self) }
    {
        Window {
            span: self.span.map(|span| span.whole_if(false)),
        }
    }

    // The tick passes, and counts here if it was this task's.
    pub fn pass(self, mine: bool) -> Window
        ensures { life result ≡ passed mine (life self) }
    {
        Window {
            span: self.span.and_then(|span| span.pass(mine)),
        }
    }

    // How many ticks of it were had.
    pub fn got(self) -> u32
        ensures { result ≡ got_of (life self) }
    {
        self.span.map_or(0, |span| span.got())
    }

    pub fn is_open(self) -> bool
        ensures { result ≡ is_open (life self) }
    {
        self.span.is_some()
    }

    // Whether this one is to be served before the other: whole ones first, then the earliest end. The end alone isn't
    // enough, since a window that isn't whole any more may end first and take ticks that a whole one needs.
    pub fn goes_before(self, other: Window) -> bool
        ensures { result ≡ goes_before (life self) (life other) }
    {
        self.span.is_some_and(|span| other.span.is_none_or(|than| span.goes_before(than)))
    }
}
