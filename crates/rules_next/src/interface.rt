//! What the driver keeps and answers.
ghost use Rattle.std.specs.Prelude.{◌≡◌};
ghost use Rattle.rules_next.specs.Faults.{number_of, layer_of};

use model::ids::IRNode;
pub use rules::interface::{
    Answer, ConversionFault, Fate, IRStatus, Layer, OpEvent, OpState, Phase, StateEntry,
    TrailRecord,
};

/// What is counted since the beginning.
#[derive(Clone, Copy, Debug, PartialEq, Eq, Default)]
pub struct Counts {
    /// Different operations that were ever queued.
    pub queued: u64,
    /// Entries of the worklist that were taken, and what became of them.
    pub taken: u64,
    pub rewritten: u64,
    pub aside: u64,
    pub waits: u64,
    pub stale: u64,
    /// Questions about the types of block arguments.
    pub questions: u64,
}

/// Why the driver refuses or closes.
#[derive(Clone, Copy, Debug, PartialEq, Eq)]
pub enum Fault {
    /// The root is not live.
    NotLive,
    /// Never begun, closed, or other memory than at the beginning.
    NotOpen,
    /// A conversion is unfinished.
    Unfinished,
    /// The definers wait for one another.
    Circle,
    /// The worklist or the pending blocks are full.
    Full,
    /// A history is too long, or there are too many.
    HistoryFull,
    /// The conversion's fault.
    Conversion(ConversionFault),
}

// Stays: beside the `Failure` of crate rules, since each edition has a `Fault` of its own.
/// A fault, and the operation or block that was in hand.
#[derive(Clone, Copy, Debug, PartialEq, Eq)]
pub struct Failure {
    pub fault: Fault,
    pub hand: Option<IRNode>,
}

/// What a run answers, and the counts that go with it.
#[derive(Clone, Copy, Debug, PartialEq, Eq)]
pub struct Report {
    pub answer: Result<Answer, Failure>,
    pub counts: Counts,
}

impl Fault {
    // Stays: one match, since a case carries a value, and an enum with such a case has no discriminants to cast.
    /// The number that the rules give it.
    pub fn number(self) -> u16
        ensures { result ≡ number_of self }
    {
        match self {
            Fault::NotLive => 3,
            Fault::NotOpen => 12,
            Fault::Unfinished => 13,
            Fault::Circle => 14,
            Fault::Full => 15,
            Fault::HistoryFull => 16,
            Fault::Conversion(_) => 17,
        }
    }

    /// Where it comes from.
    pub fn layer(self) -> Layer
        ensures { result ≡ layer_of self }
    {
        match self {
            Fault::Conversion(_) => Layer::Conversion,
            _ => Layer::Driver,
        }
    }
}
