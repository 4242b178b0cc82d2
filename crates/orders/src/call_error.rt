//! Why a program's call on a store is not made.
ghost use Rattle.std.specs.Prelude.{◌≡◌};
ghost use Rattle.orders.specs.declared.call_error.CallError.TheVariants.{Memory, Refused};

use model::refusal::Refusal;
use std::alloc::AllocError;
use std::error::Error;
use std::fmt;

/// Why a call is not made.
#[derive(Debug, Drop, PartialEq, Eq)]
pub enum CallError {
    /// No memory is left.
    Memory(AllocError),
    /// The store refused.
    Refused(Refusal),
}

impl From<AllocError> for CallError {
    ghost from_gives = { λ error made. made ≡ Memory error };

    fn from(error: AllocError) -> CallError {
        CallError::Memory(error)
    }
}

impl From<Refusal> for CallError {
    ghost from_gives = { λ refusal made. made ≡ Refused refusal };

    fn from(refusal: Refusal) -> CallError {
        CallError::Refused(refusal)
    }
}

impl fmt::Display for CallError {
    fn fmt<W: fmt::Write>(&self, f: &mut fmt::Formatter<W>) -> fmt::Result {
        match *self {
            CallError::Memory(_) => write!(f, "no memory is left"),
            CallError::Refused(refusal) => {
                write!(f, "refused by {}: {refusal}", u16::from(refusal))
            }
        }
    }
}

impl Error for CallError {}
