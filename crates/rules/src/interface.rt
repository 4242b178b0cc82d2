//! What the driver keeps and answers.
ghost use Rattle.std.specs.Prelude.{◌≡◌};
ghost use Rattle.rules.specs.Faults.{number_of, layer_of, layer_of_refusal};
ghost use Rattle.rules.specs.States.{moved};

use model::ids::{IRNode, OpId};
use model::refusal::Refusal;

/// How far a conversion has come.
#[derive(Clone, Copy, Debug, PartialEq, Eq)]
pub enum Phase {
    NeverBegun,
    Open,
    Done,
    Closed,
}

/// The state of an operation. One that is not live is erased, whatever is kept of it.
#[derive(Clone, Copy, Debug, Default, PartialEq, Eq)]
pub enum OpState {
    #[default]
    Unmarked,
    Queued,
    Rewritten,
    SetAside,
    Erased,
}

/// What happens to an operation.
#[derive(Clone, Copy, Debug, PartialEq, Eq)]
pub enum OpEvent {
    Taken,
    Queued,
    SetAside,
    Erased,
    Rewritten,
}

impl OpState {
    /// The state after the event.
    pub fn moved(self, event: OpEvent) -> OpState
        ensures { result ≡ moved self event }
    {
        match (self, event) {
            (OpState::Queued, OpEvent::Taken) => OpState::Unmarked,
            (OpState::Unmarked, OpEvent::Queued) => OpState::Queued,
            (OpState::Unmarked, OpEvent::SetAside) => OpState::SetAside,
            (_, OpEvent::Erased) => OpState::Erased,
            (_, OpEvent::Rewritten) => OpState::Rewritten,
            (state, _) => state,
        }
    }
}

/// What is kept at a slot: the state of the operation of this generation.
#[derive(Clone, Copy, Debug, Default, PartialEq, Eq)]
pub struct StateEntry {
    pub generation: u32,
    pub state: OpState,
}

/// What became of an entry of the worklist.
#[derive(Clone, Copy, Debug, PartialEq, Eq)]
pub enum Fate {
    Rewritten,
    SetAside,
    Waits,
    Stale,
}

/// A record of the trail.
#[derive(Clone, Copy, Debug, PartialEq, Eq)]
pub struct TrailRecord {
    pub operation: OpId,
    pub fate: Fate,
}

/// Whether a record was made since the beginning.
#[derive(Clone, Copy, Debug, PartialEq, Eq)]
pub enum IRStatus {
    Changed,
    Unchanged,
}

/// What a run comes to.
#[derive(Clone, Copy, Debug, PartialEq, Eq)]
pub enum Answer {
    Done(IRStatus),
    Stopped,
}

/// A conversion's own number, and the refusal that caused the fault, if one did.
#[derive(Clone, Copy, Debug, PartialEq, Eq)]
pub struct ConversionFault {
    pub number: u16,
    pub refusal: Option<Refusal>,
}

/// Why the driver refuses or closes.
#[derive(Clone, Copy, Debug, PartialEq, Eq)]
pub enum Fault {
    /// The root is not live.
    NotLive,
    /// Never begun, closed, or other memory than at the beginning.
    NotOpen,
    /// A conversion is unfinished.
    Unfinished,
    /// The definers wait for one another.
    Circle,
    /// The worklist or the pending blocks are full.
    Full,
    /// A history is too long, or there are too many.
    HistoryFull,
    /// The conversion's fault.
    Conversion(ConversionFault),
    /// The driver's own call of the rewriter is refused.
    Rewriter(Refusal),
}

/// Where a fault comes from.
#[derive(Clone, Copy, Debug, PartialEq, Eq)]
pub enum Layer {
    Store,
    Rewriter,
    Conversion,
    Driver,
}

/// A fault, and the operation or block that was in hand.
#[derive(Clone, Copy, Debug, PartialEq, Eq)]
pub struct Failure {
    pub fault: Fault,
    pub hand: Option<IRNode>,
}

impl Fault {
    // Stays: one match, since two cases carry a value, and an enum with such cases has no discriminants to cast.
    /// The number that the rules give it.
    pub fn number(self) -> u16
        ensures { result ≡ number_of self }
    {
        match self {
            Fault::NotLive => 3,
            Fault::NotOpen => 12,
            Fault::Unfinished => 13,
            Fault::Circle => 14,
            Fault::Full => 15,
            Fault::HistoryFull => 16,
            Fault::Conversion(_) => 17,
            Fault::Rewriter(refusal) => u16::from(refusal),
        }
    }

    /// Where it comes from.
    pub fn layer(self) -> Layer
        ensures { result ≡ layer_of self }
    {
        match self {
            Fault::Conversion(_) => Layer::Conversion,
            Fault::Rewriter(refusal) => Layer::from(refusal),
            _ => Layer::Driver,
        }
    }
}

/// Where a refused call comes from: the store for want of slots and for counts, else the rewriter.
impl From<Refusal> for Layer {
    ghost from_gives = { λ refusal layer. layer ≡ layer_of_refusal refusal };

    fn from(refusal: Refusal) -> Layer {
        match refusal {
            Refusal::NoSlot | Refusal::TooMany => Layer::Store,
            _ => Layer::Rewriter,
        }
    }
}
