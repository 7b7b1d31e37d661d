// What things are called.
use sched::Kind;
use sched::view::Occupant;
use std::fmt;

#[derive(Clone, Copy)]
pub struct KindName(pub Kind);

impl fmt::Display for KindName {
    fn fmt<W: fmt::Write>(&self, f: &mut fmt::Formatter<W>) -> fmt::Result {
        match self.0 {
            Kind::Reserved(quota, period) => write!(f, "reserved {quota} of {period}"),
            Kind::Fixed(rank) => write!(f, "fixed, rank {rank}"),
            Kind::Fair(weight) => write!(f, "fair, weight {weight}"),
        }
    }
}

#[derive(Clone, Copy)]
pub struct OccupantName(pub Occupant);

impl fmt::Display for OccupantName {
    fn fmt<W: fmt::Write>(&self, f: &mut fmt::Formatter<W>) -> fmt::Result {
        match self.0 {
            Occupant::Nobody => Ok(()),
            Occupant::Task(kind) => {
                let name = KindName(kind);
                write!(f, "{name}")
            }
            Occupant::Kept(quota, period) => write!(f, "ended, was {quota} of {period}"),
        }
    }
}

// So many of something.
#[derive(Clone, Copy)]
pub struct Many {
    pub n: u64,
    pub one: &'static str,
    pub more: &'static str,
}

impl fmt::Display for Many {
    fn fmt<W: fmt::Write>(&self, f: &mut fmt::Formatter<W>) -> fmt::Result {
        let Many { n, one, more } = *self;
        match n {
            0 => write!(f, "no {more}"),
            1 => write!(f, "1 {one}"),
            _ => write!(f, "{n} {more}"),
        }
    }
}
