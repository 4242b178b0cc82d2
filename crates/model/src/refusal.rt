//! Why a call is refused.
ghost use Rattle.std.specs.Prelude.{◌≡◌};
ghost use Rattle.model.specs.Numbers.{number_of};

use std::error::Error;
use std::fmt;

/// A call that could be refused for several reasons is refused for the one with the least number.
#[derive(Clone, Copy, Debug, PartialEq, Eq)]
pub enum Refusal {
    /// No slot that can be used.
    NoSlot = 1,
    /// More operands, results, regions or arguments than there is room for.
    TooMany = 2,
    /// An identity or a value that is not live.
    NotLive = 3,
    /// A place that is not set.
    PointUnset = 4,
    /// The operation already lies in a block.
    InBlock = 5,
    /// The operation lies in no block.
    NoBlock = 6,
    /// The block lies inside the operation.
    Inside = 7,
    /// The operation has another number of results than values are given.
    CountsDiffer = 8,
    /// A value of the erased part would still be an operand outside it.
    StillUsed = 9,
    /// A replacing value is made by the operation or inside it.
    OwnValue = 10,
    /// The listener has no room for the records.
    RecordsFull = 11,
}

/// The number that the rules give it.
impl From<Refusal> for u16 {
    ghost from_gives = { λ refusal number. number ≡ number_of refusal };

    fn from(refusal: Refusal) -> u16 {
        refusal as u16
    }
}

impl fmt::Display for Refusal {
    ghost use Rattle.std.specs.Prelude.{Some};
    ghost use Rattle.model.specs.Numbers.{words_of};

    ghost output = { λ refusal. Some (words_of refusal) };

    fn fmt<W: fmt::Write>(&self, f: &mut fmt::Formatter<W>) -> fmt::Result {
        f.write_str(match self {
            Refusal::NoSlot => "the store has no room for it",
            Refusal::TooMany => "it has more operands, results or arguments than there is room for",
            Refusal::NotLive => "it uses a value that is not there",
            Refusal::PointUnset => "it has no place",
            Refusal::InBlock => "it already lies in a block",
            Refusal::NoBlock => "it lies in no block",
            Refusal::Inside => "it would lie inside itself",
            Refusal::CountsDiffer => "it has another number of results than what replaces it",
            Refusal::StillUsed => "a value of it would still be used elsewhere",
            Refusal::OwnValue => "what replaces it is made by it",
            Refusal::RecordsFull => "there is no room for the records",
        })
    }
}

impl Error for Refusal {}
