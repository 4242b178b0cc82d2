//! How operations and blocks are made.
ghost use Rattle.std.specs.Prelude.{◌≡◌, ℕ, ◌+◌, ◌<◌, ◌≤◌, true, length, is_some, Some, None};
ghost use Rattle.slots.specs.Cells.{cell_at, is_free, frees, cells};
ghost use Rattle.row.specs.Items.{row_items};
ghost use Rattle.lists.specs.Lists.{nodes, containers, home};
ghost use Rattle.model.specs.Calls.{MadeAt, next_block};
ghost use Rattle.model.specs.Points.{region_at, created_at};
ghost use Rattle.tables.specs.View.{view, sizes};

use crate::records::{BasicBlock, Operation};
use crate::tables::Tables;
use crate::tables::opens::open_regions;
use crate::tables::points::link_block;
use model::ids::{BlockId, OpId, Value};
use model::limits::{MAX_ARGUMENTS, MAX_OPERANDS, MAX_RESULTS};
use model::points::BlockInsertionPoint;
use row::Row;

impl Tables {
    /// Makes an operation in `slot`, in no block, with an empty region for each mark.
    pub fn make(
        &mut self,
        slot: usize,
        kind: u16,
        note: u32,
        operands: Row<Value, MAX_OPERANDS>,
        results: Row<u32, MAX_RESULTS>,
        marks: &[bool],
    ) -> OpId
        requires free { is_free (cell_at (cells self.old.operations) slot) ≡ true }
        requires few { length marks.now ≤ 4 }
        requires room { length marks.now ≤ frees (cells self.old.regions) }
        ensures made { MadeAt (view self.old) (view self.new) slot kind note (row_items operands) (row_items results) marks.now result }
        ensures sizes { sizes self.new ≡ sizes self.old }
    {
        let generation = self.operations.next_generation(slot).unwrap();
        let owner = OpId { slot, generation };
        let regions = open_regions(&mut self.regions, owner, marks);
        self.operations.occupy(
            slot,
            Operation {
                kind,
                note,
                operands,
                results,
                regions,
            },
        );
        owner
    }

    /// Makes a block in `slot`, at `point`.
    pub fn create(
        &mut self,
        slot: usize,
        point: BlockInsertionPoint,
        arguments: Row<u32, MAX_ARGUMENTS>,
    ) -> BlockId
        requires free { is_free (cell_at (cells self.old.blocks) slot) ≡ true }
        requires node { slot < nodes self.old.block_lists }
        requires unlinked { home self.old.block_lists slot ≡ None }
        requires linked { is_some (region_at (view self.old) point) ≡ true }
        requires container { (r : ℕ) → region_at (view self.old) point ≡ Some r → r < containers self.old.block_lists }
        ensures is { result ≡ next_block (view self.old) slot }
        ensures after { view self.new ≡ created_at (view self.old) point slot (row_items arguments) }
        ensures sizes { sizes self.new ≡ sizes self.old }
    {
        let generation = self.blocks.occupy(slot, BasicBlock { arguments });
        link_block(&mut self.block_lists, point, slot);
        BlockId { slot, generation }
    }
}
