//! Where operations and blocks are put.
ghost use Rattle.std.specs.Prelude.{◌≡◌, ℕ, ◌+◌, ◌<◌, ◌≤◌, true, is_some, Some, None};
ghost use Rattle.lists.specs.Lists.{nodes, containers, members, home, Relinked};
ghost use Rattle.model.specs.Points.{block_at_point, block_at, point_live, placed_at, inserted_at, insert_refusal, region_in, block_point_live, placed_block_at, create_refusal};
ghost use Rattle.model.specs.Refusals.{verdict};
ghost use Rattle.tables.specs.View.{view, sizes};

use crate::tables::Tables;
use lists::lists::LinkedLists;
use model::ids::OpId;
use model::limits::MAX_ARGUMENTS;
use model::points::{BlockInsertionPoint, OpInsertionPoint};
use model::refusal::Refusal;

/// Links the operation in the slot `op` at `point`.
fn link_operation(lists: &mut LinkedLists, point: OpInsertionPoint, op: usize)
    requires node { op < nodes lists.old }
    requires unlinked { home lists.old op ≡ None }
    requires linked { is_some (block_at_point (home lists.old) point) ≡ true }
    requires container { (b : ℕ) → block_at_point (home lists.old) point ≡ Some b → b < containers lists.old }
    ensures { (b : ℕ) → block_at_point (home lists.old) point ≡ Some b → Relinked lists.old lists.new b (placed_at point op (members lists.old b)) op (Some b) }
{
    match point {
        OpInsertionPoint::Unset => {}
        OpInsertionPoint::AtBlockStart(block) => lists.insert_at_front(op, block.slot),
        OpInsertionPoint::AtBlockEnd(block) => lists.insert_at_back(op, block.slot),
        OpInsertionPoint::AfterOperation(mark) => lists.insert_after(op, mark.slot),
        OpInsertionPoint::BeforeOperation(mark) => lists.insert_before(op, mark.slot),
    }
}

// Stays: one match for each of the two kinds of points, whose variants have names of their own.
/// Links the block in the slot `block` at `point`.
pub fn link_block(lists: &mut LinkedLists, point: BlockInsertionPoint, block: usize)
    requires node { block < nodes lists.old }
    requires unlinked { home lists.old block ≡ None }
    requires linked { is_some (region_in (home lists.old) point) ≡ true }
    requires container { (r : ℕ) → region_in (home lists.old) point ≡ Some r → r < containers lists.old }
    ensures { (r : ℕ) → region_in (home lists.old) point ≡ Some r → Relinked lists.old lists.new r (placed_block_at point block (members lists.old r)) block (Some r) }
{
    match point {
        BlockInsertionPoint::Unset => {}
        BlockInsertionPoint::AtRegionStart(region) => lists.insert_at_front(block, region.slot),
        BlockInsertionPoint::AtRegionEnd(region) => lists.insert_at_back(block, region.slot),
        BlockInsertionPoint::AfterBlock(mark) => lists.insert_after(block, mark.slot),
        BlockInsertionPoint::BeforeBlock(mark) => lists.insert_before(block, mark.slot),
    }
}

impl Tables {
    /// The slot of the block that `point` is in.
    pub fn block_at(&self, point: OpInsertionPoint) -> Option<usize>
        ensures { result ≡ block_at (view self.now) point }
    {
        match point {
            OpInsertionPoint::Unset => None,
            OpInsertionPoint::AtBlockStart(block) | OpInsertionPoint::AtBlockEnd(block) => {
                Some(block.slot)
            }
            OpInsertionPoint::AfterOperation(mark) | OpInsertionPoint::BeforeOperation(mark) => {
                self.op_lists.get_container(mark.slot)
            }
        }
    }

    /// Is what `point` names live?
    pub fn is_live_point(&self, point: OpInsertionPoint) -> bool
        ensures { result ≡ point_live (view self.now) point }
    {
        match point {
            OpInsertionPoint::Unset => true,
            OpInsertionPoint::AtBlockStart(block) | OpInsertionPoint::AtBlockEnd(block) => {
                self.basic_block(block).is_some()
            }
            OpInsertionPoint::AfterOperation(mark) | OpInsertionPoint::BeforeOperation(mark) => {
                self.operation(mark).is_some()
            }
        }
    }

    /// Is what `point` names live?
    pub fn is_live_block_point(&self, point: BlockInsertionPoint) -> bool
        ensures { result ≡ block_point_live (view self.now) point }
    {
        match point {
            BlockInsertionPoint::Unset => true,
            BlockInsertionPoint::AtRegionStart(region) | BlockInsertionPoint::AtRegionEnd(region) =>
                { self.region(region).is_some() }
            BlockInsertionPoint::AfterBlock(mark) | BlockInsertionPoint::BeforeBlock(mark) => {
                self.basic_block(mark).is_some()
            }
        }
    }

    /// May `op` be put at `point`? If not, why.
    pub fn check_insert(&self, point: OpInsertionPoint, op: OpId) -> Result<(), Refusal>
        ensures { result ≡ verdict (insert_refusal (view self.now) point op) }
    {
        if self.operation(op).is_none() || !self.is_live_point(point) {
            return Err(Refusal::NotLive);
        }
        if point.is_unset() {
            return Err(Refusal::PointUnset);
        }
        if self.op_lists.get_container(op.slot).is_some() {
            return Err(Refusal::InBlock);
        }
        let Some(block) = self.block_at(point) else {
            return Err(Refusal::NoBlock);
        };
        if self.lies_inside(op.slot, block) {
            return Err(Refusal::Inside);
        }
        Ok(())
    }

    /// May a block be made at `point`? If not, why.
    pub fn check_create(&self, point: BlockInsertionPoint, arg_types: &[u32]) -> Result<(), Refusal>
        ensures { result ≡ verdict (create_refusal (view self.now) point arg_types.now) }
    {
        if self.blocks.free_count() == 0 {
            return Err(Refusal::NoSlot);
        }
        if arg_types.len() > MAX_ARGUMENTS {
            return Err(Refusal::TooMany);
        }
        if !self.is_live_block_point(point) {
            return Err(Refusal::NotLive);
        }
        if point.is_unset() {
            return Err(Refusal::PointUnset);
        }
        Ok(())
    }

    /// Puts the operation in the slot `op`, which lies in no block, at `point`.
    pub fn insert(&mut self, point: OpInsertionPoint, op: usize)
        requires node { op < nodes self.old.op_lists }
        requires unlinked { home self.old.op_lists op ≡ None }
        requires linked { is_some (block_at (view self.old) point) ≡ true }
        requires container { (b : ℕ) → block_at (view self.old) point ≡ Some b → b < containers self.old.op_lists }
        ensures after { view self.new ≡ inserted_at (view self.old) point op }
        ensures sizes { sizes self.new ≡ sizes self.old }
    {
        link_operation(&mut self.op_lists, point, op);
    }
}
