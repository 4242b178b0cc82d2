//! What a recorder keeps of a change.
ghost use Rattle.std.specs.Prelude.{◌≡◌};
ghost use Rattle.calls.specs.Perform.{erasing};

use model::ids::{BlockId, IRNode, OpId, RegionId, Value};
use model::points::OpInsertionPoint;

/// At most so many records are kept.
pub const MAX_RECORDS: usize = 1024;

#[derive(Clone, Copy, Debug, PartialEq, Eq)]
pub enum RecorderEvent {
    InsertedOperation(OpId),
    InsertedBlock(BlockId),
    // Stays: one variant for each kind of node, as pliron names them.
    ErasedOperation(OpId),
    ErasedBlock(BlockId),
    ErasedRegion(RegionId),
    /// The value that was used, the type that it had, and the value that is used in its place.
    ReplacedValueUses(Value, u32, Value),
    /// The value, the type that it had, and the one that it has.
    ValueTypeChanged(Value, u32, u32),
    /// The operation, and where it was.
    UnlinkedOperation(OpId, OpInsertionPoint),
}

impl RecorderEvent {
    /// The record of a node that is erased.
    pub fn erased(node: IRNode) -> RecorderEvent
        ensures { result ≡ erasing node }
    {
        match node {
            IRNode::Operation(op) => RecorderEvent::ErasedOperation(op),
            IRNode::BasicBlock(block) => RecorderEvent::ErasedBlock(block),
            IRNode::Region(region) => RecorderEvent::ErasedRegion(region),
        }
    }
}
