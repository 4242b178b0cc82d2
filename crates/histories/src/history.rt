//! The types that one value had.
ghost use Rattle.rules_next.specs.declared.interface.Fault.TheVariants.{HistoryFull};
ghost use Rattle.std.specs.Prelude.{◌≡◌};

use model::ids::Value;
use row::{Row, TooLong};
use rules_next::interface::Fault;
use std::error::Error;
use std::fmt;

/// At most so many types of a value are kept.
pub const MAX_TYPES: usize = 16;
/// At most so many values have types kept.
pub const MAX_HISTORIES: usize = 1024;

/// A value, and the types that it had, the most recent last.
#[derive(Clone, Copy, Default)]
pub struct TypeHistory {
    pub value: Value,
    pub types: Row<u32, MAX_TYPES>,
}

/// A history would be too long, or there would be too many.
#[derive(Clone, Copy, Debug, PartialEq, Eq)]
pub struct HistoryFull;

impl fmt::Display for HistoryFull {
    ghost use Rattle.std.specs.Prelude.{Some, codes};

    ghost output = { λ _. Some (codes "a history is too long, or there are too many") };

    fn fmt<W: fmt::Write>(&self, f: &mut fmt::Formatter<W>) -> fmt::Result {
        f.write_str("a history is too long, or there are too many")
    }
}

impl Error for HistoryFull {}

/// A history has only so many places.
impl From<TooLong> for HistoryFull {
    fn from(_long: TooLong) -> HistoryFull {
        HistoryFull
    }
}

impl From<HistoryFull> for Fault {
    ghost from_gives = { λ _ fault. fault ≡ HistoryFull };

    fn from(_full: HistoryFull) -> Fault {
        Fault::HistoryFull
    }
}
