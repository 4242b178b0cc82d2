//! Tables with nothing in them.
ghost use Rattle.std.specs.Prelude.{◌≡◌, ℕ, [], ◌∷◌, IfOk};
ghost use Rattle.model.specs.Model.{blank};
ghost use Rattle.tables.specs.View.{view, sizes};

use crate::tables::Tables;
use lists::lists::LinkedLists;
use slots::Table;
use std::alloc::{AllocError, Global};

impl Tables {
    /// Tables of so many slots.
    pub fn new(
        heap: Global,
        ops: usize,
        blocks: usize,
        regions: usize,
    ) -> Result<Tables, AllocError>
        ensures { IfOk result (λ t. (view t ≡ blank ops blocks regions) × (sizes t ≡ ops ∷ blocks ∷ regions ∷ ops ∷ blocks ∷ blocks ∷ regions ∷ [])) }
    {
        let operation_table = Table::new(heap, ops)?;
        let block_table = Table::new(heap, blocks)?;
        let region_table = Table::new(heap, regions)?;
        let op_lists = LinkedLists::new(heap, ops, blocks)?;
        let block_lists = LinkedLists::new(heap, blocks, regions)?;
        Ok(Tables {
            operations: operation_table,
            blocks: block_table,
            regions: region_table,
            op_lists,
            block_lists,
        })
    }
}
