//! How records are changed in their places.
ghost use Rattle.std.specs.Prelude.{◌≡◌, ℕ, ◌+◌, ◌<◌, ◌≤◌, map, length};
ghost use Rattle.row.specs.Items.{row_items};
ghost use Rattle.slots.specs.Cells.{cell_of, viewed, cells};
ghost use Rattle.model.specs.Calls.{retyped, reargued, replaced, reused, typed_at, replace_all};
ghost use Rattle.tables.specs.View.{view_op, view_block, view, sizes, Changed};

use crate::records::{BasicBlock, Operation};
use crate::tables::Tables;
use model::ids::{DefiningEntity, Value};
use model::limits::MAX_OPERANDS;
use row::Row;
use slots::{Slot, Table};

/// `new` in place of `old`, and any other value as it is.
pub fn exchange(value: Value, old: Value, new: Value) -> Value
    ensures { result ≡ replaced old new value }
{
    if value == old { new } else { value }
}

/// `new` stands in place of `old` among the operands.
fn replace_uses(operands: &mut Row<Value, MAX_OPERANDS>, old: Value, new: Value)
    ensures { row_items operands.new ≡ map (replaced old new) (row_items operands.old) }
{
    operands.update(|value| exchange(value, old, new));
}

/// `new` stands in place of `old` among the operands of the operation in `slot`.
fn replace_in(slot: &mut Slot<Operation>, old: Value, new: Value)
    ensures { viewed view_op (cell_of slot.new) ≡ viewed (reused old new) (viewed view_op (cell_of slot.old)) }
{
    slot.change(|operation| replace_uses(&mut operation.operands, old, new));
}

/// `new` stands in place of `old` among the operands of each operation.
pub fn replace_everywhere(operations: &mut Table<Operation>, old: Value, new: Value)
    ensures cells { map (viewed view_op) (cells operations.new) ≡ map (viewed (reused old new)) (map (viewed view_op) (cells operations.old)) }
    ensures len { length (cells operations.new) ≡ length (cells operations.old) }
{
    for slot in operations.slots.iter_mut() {
        replace_in(slot, old, new);
    }
}

impl Tables {
    /// A live value has the type `to`.
    pub fn set_value_type(&mut self, value: Value, to: u32)
        ensures after { view self.new ≡ typed_at (view self.old) value.definer value.index to }
        ensures sizes { sizes self.new ≡ sizes self.old }
    {
        let index = usize::from(value.index);
        match value.definer {
            DefiningEntity::Op(op) => self.operations.change(op.slot, |operation| {
                operation.results.set(index, to);
            }),
            DefiningEntity::Block(block) => self.blocks.change(block.slot, |basic_block| {
                basic_block.arguments.set(index, to);
            }),
        }
    }

    /// `new` stands in place of `old` among all operands.
    pub fn replace_all_uses(&mut self, old: Value, new: Value)
        ensures after { view self.new ≡ replace_all (view self.old) old new }
        ensures sizes { sizes self.new ≡ sizes self.old }
    {
        replace_everywhere(&mut self.operations, old, new);
    }
}
