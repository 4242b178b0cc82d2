//! Where an operation or a block is put.
ghost use Rattle.std.specs.Prelude.{◌≡◌};
ghost use Rattle.model.specs.Points.{is_unset, is_block_unset};

use crate::ids::{BlockId, OpId, RegionId};

/// A place for an operation.
// Stays: no Option around the places, since `Unset` is one of the points that the IR gives an operation.
#[derive(Clone, Copy, Debug, PartialEq, Eq)]
pub enum OpInsertionPoint {
    /// No place.
    Unset,
    /// Before the first operation of a block.
    AtBlockStart(BlockId),
    /// Behind the last operation of a block.
    AtBlockEnd(BlockId),
    /// Right behind an operation.
    AfterOperation(OpId),
    /// Right before an operation.
    BeforeOperation(OpId),
}

// Stays: two enums, each with the names of the places that the IR gives it: operations in blocks, blocks in regions.
/// A place for a block.
#[derive(Clone, Copy, Debug, PartialEq, Eq)]
pub enum BlockInsertionPoint {
    /// No place.
    Unset,
    /// Before the first block of a region.
    AtRegionStart(RegionId),
    /// Behind the last block of a region.
    AtRegionEnd(RegionId),
    /// Right behind a block.
    AfterBlock(BlockId),
    /// Right before a block.
    BeforeBlock(BlockId),
}

impl OpInsertionPoint {
    /// Does it name no place?
    pub fn is_unset(self) -> bool
        ensures { result ≡ is_unset self }
    {
        matches!(self, OpInsertionPoint::Unset)
    }
}

impl BlockInsertionPoint {
    /// Does it name no place?
    pub fn is_unset(self) -> bool
        ensures { result ≡ is_block_unset self }
    {
        matches!(self, BlockInsertionPoint::Unset)
    }
}
