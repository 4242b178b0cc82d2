//! What is read of blocks and regions.
ghost use Rattle.std.specs.Prelude.{◌≡◌, ℕ};
ghost use Rattle.std.specs.Option.{option_map};
ghost use Rattle.model.specs.Model.{find_block, find_region, owner_of, parent_region_of, next_block_of, prev_block_of, first_op_of, last_op_of, first_block_of, last_block_of};
ghost use Rattle.store.specs.Meaning.{meaning};

use crate::store::Store;
use model::ids::{BlockId, OpId, RegionId};

impl Store {
    /// The types of the arguments of a block.
    pub fn argument_types(&self, block: BlockId) -> Option<&[u32]>
        ensures { option_map (λ x. x.now) result ≡ option_map (λ x. x.args) (find_block (meaning self.now) block) }
    {
        self.tables
            .basic_block(block)
            .map(|basic_block| basic_block.arguments.as_slice())
    }

    // Stays: of one shape with the others here and in reading, but table, links and identity differ in each.
    /// The region that a block lies in.
    pub fn get_parent_region(&self, block: BlockId) -> Option<RegionId>
        ensures { result ≡ parent_region_of (meaning self.now) block }
    {
        self.tables.basic_block(block)?;
        let slot = self.tables.block_lists.get_container(block.slot)?;
        Some(self.tables.region_id(slot))
    }

    /// The block behind a block in its region.
    pub fn get_next_block(&self, block: BlockId) -> Option<BlockId>
        ensures { result ≡ next_block_of (meaning self.now) block }
    {
        self.tables.basic_block(block)?;
        let slot = self.tables.block_lists.get_next(block.slot)?;
        Some(self.tables.block_id(slot))
    }

    /// The block before a block in its region.
    pub fn get_prev_block(&self, block: BlockId) -> Option<BlockId>
        ensures { result ≡ prev_block_of (meaning self.now) block }
    {
        self.tables.basic_block(block)?;
        let slot = self.tables.block_lists.get_prev(block.slot)?;
        Some(self.tables.block_id(slot))
    }

    /// The first operation of a block.
    pub fn first_operation(&self, block: BlockId) -> Option<OpId>
        ensures { result ≡ first_op_of (meaning self.now) block }
    {
        self.tables.basic_block(block)?;
        let slot = self.tables.op_lists.get_head(block.slot)?;
        Some(self.tables.op_id(slot))
    }

    /// The last operation of a block.
    pub fn last_operation(&self, block: BlockId) -> Option<OpId>
        ensures { result ≡ last_op_of (meaning self.now) block }
    {
        self.tables.basic_block(block)?;
        let slot = self.tables.op_lists.get_tail(block.slot)?;
        Some(self.tables.op_id(slot))
    }

    /// Is a region a graph region?
    pub fn is_graph(&self, region: RegionId) -> Option<bool>
        ensures { result ≡ option_map (λ x. x.graph) (find_region (meaning self.now) region) }
    {
        self.tables.region(region).map(|record| record.graph)
    }

    /// The operation that a region belongs to.
    pub fn get_parent_op(&self, region: RegionId) -> Option<OpId>
        ensures { result ≡ owner_of (find_region (meaning self.now) region) }
    {
        self.tables.region(region).map(|record| record.owner)
    }

    /// The first block of a region.
    pub fn first_block(&self, region: RegionId) -> Option<BlockId>
        ensures { result ≡ first_block_of (meaning self.now) region }
    {
        self.tables.region(region)?;
        let slot = self.tables.block_lists.get_head(region.slot)?;
        Some(self.tables.block_id(slot))
    }

    /// The last block of a region.
    pub fn last_block(&self, region: RegionId) -> Option<BlockId>
        ensures { result ≡ last_block_of (meaning self.now) region }
    {
        self.tables.region(region)?;
        let slot = self.tables.block_lists.get_tail(region.slot)?;
        Some(self.tables.block_id(slot))
    }
}
