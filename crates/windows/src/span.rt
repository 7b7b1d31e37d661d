// An open window: how many ticks are left of it, how many were had, and whether its task wanted every one.
ghost use Rattle.std.specs.Prelude.{◌≡◌, ◌+◌, ◌<◌, ◌≤◌, true, not, ◌&&◌, ◌||◌, if◌then◌else◌, nat_lt};

use quantities::promises::Reservation;

#[derive(Clone, Copy, PartialEq, Eq, Debug)]
pub struct Span {
    ends: u16,
    got: u16,
    whole: bool,
    ghost running: { 1 ≤ ends },
    ghost within: { ends + got ≤ 10080 },
}

impl Span {
    ghost use Rattle.windows.specs.Life.{Open, life_of, passed};

    // As long as the period, none had yet, and whole.
    pub(crate) fn new(reservation: Reservation) -> Span
        ensures ends { result.ends ≡ reservation.period }
        ensures got { result.got ≡ 0 }
        ensures whole { result.whole ≡ true }
    {
        Span {
            // `as` loses nothing: a period is at most 10,080.
            ends: reservation.period() as u16,
            got: 0,
            whole: true,
        }
    }

    // Whole only if it was and its task wants the tick.
    pub(crate) fn whole_if(self, wants: bool) -> Span
        ensures ends { result.ends ≡ self.ends }
        ensures got { result.got ≡ self.got }
        ensures whole { result.whole ≡ self.whole && wants }
    {
        Span {
            ends: self.ends,
            got: self.got,
            whole: self.whole && wants,
        }
    }

    // One tick less to go, and one more had if it was this task's; none if this was the last of it.
    pub(crate) fn pass(self, mine: bool) -> Option<Span>
        ensures { life_of result ≡ passed mine (Open self.ends self.got self.whole) }
    {
        if self.ends == 1 {
            return None;
        }
        Some(Span {
            ends: self.ends - 1,
            got: self.got + u16::from(mine),
            whole: self.whole,
        })
    }

    // How many ticks of it are to come.
    pub fn ends(self) -> u32
        ensures { result ≡ self.ends }
    {
        u32::from(self.ends)
    }

    // Its task wanted every tick of it until now.
    pub fn is_whole(self) -> bool
        ensures { result ≡ self.whole }
    {
        self.whole
    }

    // How many ticks of it were had.
    pub fn got(self) -> u32
        ensures { result ≡ self.got }
    {
        u32::from(self.got)
    }

    // Whole ones first, then the earliest end.
    pub(crate) fn goes_before(self, other: Span) -> bool
        ensures { result ≡ (if self.whole then not other.whole || nat_lt self.ends other.ends else not other.whole && nat_lt self.ends other.ends) }
    {
        if self.whole != other.whole {
            return self.whole;
        }
        self.ends < other.ends
    }
}
