//! What is read of the tables.
ghost use Rattle.std.specs.Prelude.{◌≡◌, ℕ, ◌+◌, ◌<◌, ◌≤◌, true};
ghost use Rattle.std.specs.Option.{option_map};
ghost use Rattle.model.specs.Model.{type_of, is_value, are_values, find_op, find_block, find_region, op_id, block_id, region_id};
ghost use Rattle.model.specs.Calls.{make_refusal, unlink_refusal};
ghost use Rattle.model.specs.Refusals.{verdict};
ghost use Rattle.tables.specs.View.{view, view_op, view_block};

use crate::records::{BasicBlock, Operation};
use crate::tables::Tables;
use model::ids::{BlockId, DefiningEntity, OpId, Region, RegionId, Value};
use model::limits::{MAX_OPERANDS, MAX_REGIONS, MAX_RESULTS};
use model::refusal::Refusal;

impl Tables {
    /// A live operation.
    pub fn operation(&self, op: OpId) -> Option<&Operation>
        ensures { option_map (λ x. view_op x.now) result ≡ find_op (view self.now) op }
    {
        self.operations.get(op.slot, op.generation)
    }

    // Stays: three readers of three tables, each one line; the identities are three types.
    /// A live block.
    pub fn basic_block(&self, block: BlockId) -> Option<&BasicBlock>
        ensures { option_map (λ x. view_block x.now) result ≡ find_block (view self.now) block }
    {
        self.blocks.get(block.slot, block.generation)
    }

    /// A live region.
    pub fn region(&self, region: RegionId) -> Option<&Region>
        ensures { option_map (λ x. x.now) result ≡ find_region (view self.now) region }
    {
        self.regions.get(region.slot, region.generation)
    }

    // Stays: total, as the definitions are, with generation 0 where nothing lives; what is linked lives.
    /// The identity of the region that lives in `slot`.
    pub fn region_id(&self, slot: usize) -> RegionId
        ensures { result ≡ region_id (view self.now) slot }
    {
        let generation = self.regions.live_generation(slot).unwrap_or(0);
        RegionId { slot, generation }
    }

    /// The identity of the operation that lives in `slot`.
    pub fn op_id(&self, slot: usize) -> OpId
        ensures { result ≡ op_id (view self.now) slot }
    {
        let generation = self.operations.live_generation(slot).unwrap_or(0);
        OpId { slot, generation }
    }

    /// The identity of the block that lives in `slot`.
    pub fn block_id(&self, slot: usize) -> BlockId
        ensures { result ≡ block_id (view self.now) slot }
    {
        let generation = self.blocks.live_generation(slot).unwrap_or(0);
        BlockId { slot, generation }
    }

    /// The type of a value, where it is live.
    pub fn value_type(&self, value: Value) -> Option<u32>
        ensures { result ≡ type_of (view self.now) value }
    {
        match value.definer {
            DefiningEntity::Op(op) => self.operation(op)?.results.get(usize::from(value.index)),
            DefiningEntity::Block(block) => {
                self.basic_block(block)?
                    .arguments
                    .get(usize::from(value.index))
            }
        }
    }

    /// Is `value` live?
    pub fn is_value(&self, value: Value) -> bool
        ensures { result ≡ is_value (view self.now) value }
    {
        self.value_type(value).is_some()
    }

    /// Is each of `values` live?
    pub fn are_values(&self, values: &[Value]) -> bool
        ensures { result ≡ are_values (view self.now) values.now }
    {
        values.iter().all(|value| self.is_value(*value))
    }

    /// May an operation be made? If not, why.
    pub fn check_make(
        &self,
        operands: &[Value],
        result_types: &[u32],
        regions: &[bool],
    ) -> Result<(), Refusal>
        ensures { result ≡ verdict (make_refusal (view self.now) operands.now result_types.now regions.now) }
    {
        if self.operations.free_count() == 0 || self.regions.free_count() < regions.len() {
            return Err(Refusal::NoSlot);
        }
        if operands.len() > MAX_OPERANDS
            || result_types.len() > MAX_RESULTS
            || regions.len() > MAX_REGIONS
        {
            return Err(Refusal::TooMany);
        }
        if !self.are_values(operands) {
            return Err(Refusal::NotLive);
        }
        Ok(())
    }

    /// May `op` be taken out of its block? If not, why.
    pub fn check_unlink(&self, op: OpId) -> Result<(), Refusal>
        ensures { result ≡ verdict (unlink_refusal (view self.now) op) }
    {
        if self.operation(op).is_none() {
            return Err(Refusal::NotLive);
        }
        if self.op_lists.get_container(op.slot).is_none() {
            return Err(Refusal::NoBlock);
        }
        Ok(())
    }
}
