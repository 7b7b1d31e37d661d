// The three kinds of task, by which a row is coloured.
use sched::Kind;
use sched::view::Occupant;
use std::fmt;

#[derive(Clone, Copy, PartialEq, Eq)]
pub enum Class {
    Reserved,
    Fixed,
    Fair,
}

impl From<Kind> for Class {
    fn from(kind: Kind) -> Self {
        match kind {
            Kind::Reserved(_, _) => Class::Reserved,
            Kind::Fixed(_) => Class::Fixed,
            Kind::Fair(_) => Class::Fair,
        }
    }
}

impl Class {
    // No `From`: a crate can't give one for an Option of its own type.
    pub fn of(occupant: Occupant) -> Option<Self> {
        match occupant {
            Occupant::Task(kind) => Some(kind.into()),
            Occupant::Nobody | Occupant::Kept(_, _) => None,
        }
    }

    // Its class in the style sheet.
    pub fn style(self) -> &'static str {
        match self {
            Class::Reserved => "r",
            Class::Fixed => "x",
            Class::Fair => "f",
        }
    }
}

impl fmt::Display for Class {
    fn fmt<W: fmt::Write>(&self, f: &mut fmt::Formatter<W>) -> fmt::Result {
        f.write_str(self.style())
    }
}
