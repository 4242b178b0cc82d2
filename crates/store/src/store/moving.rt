//! Whether an operation may go elsewhere, and where it is.
ghost use Rattle.std.specs.Prelude.{◌≡◌};
ghost use Rattle.model.specs.Calls.{unlink_refusal};
ghost use Rattle.model.specs.Moving.{names, move_refusal, old_place};
ghost use Rattle.model.specs.Refusals.{verdict};
ghost use Rattle.store.specs.Meaning.{meaning};

use crate::store::Store;
use model::ids::OpId;
use model::points::OpInsertionPoint;
use model::refusal::Refusal;

/// Does `point` name `op`?
fn is_at(point: OpInsertionPoint, op: OpId) -> bool
    ensures { result ≡ names point op }
{
    match point {
        OpInsertionPoint::AfterOperation(mark) | OpInsertionPoint::BeforeOperation(mark) => {
            mark.slot == op.slot
        }
        _ => false,
    }
}

impl Store {
    /// May `op` be taken out of its block? If not, why.
    pub fn check_unlink(&self, op: OpId) -> Result<(), Refusal>
        ensures { result ≡ verdict (unlink_refusal (meaning self.now) op) }
    {
        self.tables.check_unlink(op)
    }

    /// May `op` be moved to `point`? If not, why.
    pub fn check_move(&self, op: OpId, point: OpInsertionPoint) -> Result<(), Refusal>
        ensures { result ≡ verdict (move_refusal (meaning self.now) op point) }
    {
        if self.tables.operation(op).is_none() || !self.tables.is_live_point(point) {
            return Err(Refusal::NotLive);
        }
        if point.is_unset() {
            return Err(Refusal::PointUnset);
        }
        if self.tables.op_lists.get_container(op.slot).is_none() || is_at(point, op) {
            return Err(Refusal::NoBlock);
        }
        let Some(block) = self.tables.block_at(point) else {
            return Err(Refusal::NoBlock);
        };
        if self.tables.lies_inside(op.slot, block) {
            return Err(Refusal::Inside);
        }
        Ok(())
    }

    // Stays: a point and no Option, as the record of an unlinking and the definition have it; `Unset` where `op` lies in no block.
    /// Where `op` is: at its block's start, else at its end, else behind the operation before it; `Unset` where it lies in no block.
    pub fn old_place(&self, op: OpId) -> OpInsertionPoint
        ensures { result ≡ old_place (meaning self.now) op }
    {
        let Some(block) = self.tables.op_lists.get_container(op.slot) else {
            return OpInsertionPoint::Unset;
        };
        if self.tables.op_lists.get_head(block) == Some(op.slot) {
            return OpInsertionPoint::AtBlockStart(self.tables.block_id(block));
        }
        if self.tables.op_lists.get_tail(block) == Some(op.slot) {
            return OpInsertionPoint::AtBlockEnd(self.tables.block_id(block));
        }
        match self.tables.op_lists.get_prev(op.slot) {
            Some(previous) => OpInsertionPoint::AfterOperation(self.tables.op_id(previous)),
            None => OpInsertionPoint::Unset,
        }
    }
}
