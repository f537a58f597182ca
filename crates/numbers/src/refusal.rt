// A refusal is a fault, which has document 01's number, and the place of the first faulty record, 0 where no record is at fault.
ghost use Rattle.std.specs.Prelude.{◌≡◌, Some};
ghost use Rattle.numbers.specs.Refusals.{number_of, refusal, refusal_text};

use std::error::Error;
use std::fmt;

#[derive(Clone, Copy, Debug, PartialEq, Eq)]
pub enum Fault {
    Settings,
    Length,
    Room,
    Full,
    Field,
    Outside,
    Order,
    Mismatch,
    Pairs,
}

#[derive(Clone, Copy, Debug, PartialEq, Eq)]
pub struct Refusal {
    pub fault: Fault,
    pub place: u64,
}

impl Fault {
    // The refusal of this fault at a place.
    pub fn at(self, place: u64) -> Refusal
        ensures { result ≡ refusal self place }
    {
        Refusal { fault: self, place }
    }
}

// The fault's number in document 01.
impl From<Fault> for u64 {
    ghost from_gives = { λ f n. n ≡ number_of f };

    fn from(f: Fault) -> u64 {
        match f {
            Fault::Settings => 1,
            Fault::Length => 2,
            Fault::Room => 3,
            Fault::Full => 4,
            Fault::Field => 5,
            Fault::Outside => 6,
            Fault::Order => 7,
            Fault::Mismatch => 8,
            Fault::Pairs => 9,
        }
    }
}

// Where no record is at fault the place is 0: so `?` makes a refusal of a fault alone.
impl From<Fault> for Refusal {
    ghost from_gives = { λ f r. r ≡ refusal f 0 };

    fn from(fault: Fault) -> Refusal {
        fault.at(0)
    }
}

// Its number and its place.
impl fmt::Display for Refusal {
    ghost output = { λ r. Some (refusal_text r) };

    fn fmt<W: fmt::Write>(&self, f: &mut fmt::Formatter<W>) -> fmt::Result {
        write!(f, "{} {}", u64::from(self.fault), self.place)
    }
}

impl Error for Refusal {}
