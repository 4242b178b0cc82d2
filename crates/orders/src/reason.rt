//! Why an order is not taken.
ghost use Rattle.std.specs.Prelude.{◌≡◌};
ghost use Rattle.orders.specs.declared.reason.Reason.TheVariants.{Memory, Refused};

use model::refusal::Refusal;
use std::alloc::{AllocError, AllocFailed};
use std::error::Error;
use std::fmt;

/// What is wrong with a line. A word is named by its place in the line, the first being 1.
#[derive(Clone, Copy, Debug, PartialEq, Eq)]
pub enum Reason {
    /// No memory is left.
    Memory,
    /// The line ends before its kind.
    NoKind,
    /// The line ends before its note.
    NoNote,
    /// The kind is no number up to 65535.
    BadKind,
    /// The note is no number up to 4294967295.
    BadNote,
    /// This word should name a value.
    BadOperand(usize),
    /// This word should be a type.
    BadType(usize),
    /// This word is a second arrow.
    SecondArrow(usize),
    /// This word names a line that is not an operation above.
    NoSuchLine(usize),
    /// The first operation holds all others, so it has no operands.
    OrderWithOperands,
    /// There is no operation at all.
    Empty,
    // Stays: beside `CallError`, which has no line to name; a reason is told with its line.
    /// The store refused.
    Refused(Refusal),
}

impl From<AllocError> for Reason {
    ghost from_gives = { λ _ reason. reason ≡ Memory };

    fn from(_e: AllocError) -> Reason {
        Reason::Memory
    }
}

impl<T: Drop> From<AllocFailed<T>> for Reason {
    ghost from_gives = { λ _ reason. reason ≡ Memory };

    fn from(_e: AllocFailed<T>) -> Reason {
        Reason::Memory
    }
}

impl From<Refusal> for Reason {
    ghost from_gives = { λ refusal reason. reason ≡ Refused refusal };

    fn from(refusal: Refusal) -> Reason {
        Reason::Refused(refusal)
    }
}

impl fmt::Display for Reason {
    fn fmt<W: fmt::Write>(&self, f: &mut fmt::Formatter<W>) -> fmt::Result {
        match *self {
            Reason::Memory => write!(f, "no memory is left"),
            Reason::NoKind => write!(f, "the kind is missing"),
            Reason::NoNote => write!(f, "the note is missing"),
            Reason::BadKind => write!(f, "the kind is no number from 0 to 65535"),
            Reason::BadNote => write!(f, "the note is no number from 0 to 4294967295"),
            Reason::BadOperand(place) => {
                write!(
                    f,
                    "word {place} is no operand, as 2.0 for result 0 of line 2"
                )
            }
            Reason::BadType(place) => {
                write!(f, "word {place} is no type, a number from 0 to 4294967295")
            }
            Reason::SecondArrow(place) => write!(f, "word {place} is a second ->"),
            Reason::NoSuchLine(place) => {
                write!(
                    f,
                    "word {place} names a line that is not an operation above"
                )
            }
            Reason::OrderWithOperands => write!(f, "the order itself has no operands"),
            Reason::Empty => write!(f, "there is no operation"),
            Reason::Refused(refusal) => {
                write!(f, "refused by {}: {refusal}", u16::from(refusal))
            }
        }
    }
}

impl Error for Reason {}

/// What is wrong, and in which line, the first being 1.
#[derive(Clone, Copy, Debug, PartialEq, Eq)]
pub struct Fault {
    pub line: usize,
    pub reason: Reason,
}

impl fmt::Display for Fault {
    fn fmt<W: fmt::Write>(&self, f: &mut fmt::Formatter<W>) -> fmt::Result {
        write!(f, "line {}: {}", self.line, self.reason)
    }
}

impl Error for Fault {}
