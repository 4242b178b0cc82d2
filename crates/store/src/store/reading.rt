//! What is read of operations and of values.
ghost use Rattle.std.specs.Prelude.{◌≡◌, ℕ, ◌≤◌};
ghost use Rattle.row.specs.Items.{row_items};
ghost use Rattle.std.specs.Option.{option_map};
ghost use Rattle.model.specs.Model.{Operation, find_op, are_values, type_of, parent_block_of, next_op_of, prev_op_of};
ghost use Rattle.model.specs.Calls.{results_from, result_values};
ghost use Rattle.store.specs.Meaning.{meaning};

use crate::store::Store;
use model::ids::{BlockId, DefiningEntity, OpId, RegionId, Value};
use model::limits::MAX_RESULTS;
use row::Row;

/// The first `count` results of `op`.
fn first_results(op: OpId, count: usize) -> Row<Value, MAX_RESULTS>
    requires { count ≤ 4 }
    ensures { row_items result ≡ results_from op 0 count }
{
    let mut values = Row::default();
    // Stays: the index is what each value is made of.
    for index in 0..count {
        values.push(Value {
            definer: DefiningEntity::Op(op),
            index: index as u8,
        });
    }
    values
}

impl Store {
    /// The kind of an operation.
    pub fn kind(&self, op: OpId) -> Option<u16>
        ensures { result ≡ option_map (λ x. x.kind) (find_op (meaning self.now) op) }
    {
        self.tables.operation(op).map(|operation| operation.kind)
    }

    // Stays: readers of one line, each of another field.
    /// The note of an operation.
    pub fn note(&self, op: OpId) -> Option<u32>
        ensures { result ≡ option_map (λ x. x.note) (find_op (meaning self.now) op) }
    {
        self.tables.operation(op).map(|operation| operation.note)
    }

    /// The operands of an operation.
    pub fn operands(&self, op: OpId) -> Option<&[Value]>
        ensures { option_map (λ x. x.now) result ≡ option_map (λ x. x.operands) (find_op (meaning self.now) op) }
    {
        self.tables
            .operation(op)
            .map(|operation| operation.operands.as_slice())
    }

    /// The types of the results of an operation.
    pub fn result_types(&self, op: OpId) -> Option<&[u32]>
        ensures { option_map (λ x. x.now) result ≡ option_map (λ x. x.results) (find_op (meaning self.now) op) }
    {
        self.tables
            .operation(op)
            .map(|operation| operation.results.as_slice())
    }

    /// The results of an operation, as values: none where it is not live.
    pub fn results(&self, op: OpId) -> Row<Value, MAX_RESULTS>
        ensures { row_items result ≡ result_values (meaning self.now) op }
    {
        match self.tables.operation(op) {
            Some(operation) => first_results(op, operation.results.len()),
            None => Row::default(),
        }
    }

    /// The regions of an operation.
    pub fn regions(&self, op: OpId) -> Option<&[RegionId]>
        ensures { option_map (λ x. x.now) result ≡ option_map (λ x. x.regions) (find_op (meaning self.now) op) }
    {
        self.tables
            .operation(op)
            .map(|operation| operation.regions.as_slice())
    }

    /// The type of a value.
    pub fn value_type(&self, value: Value) -> Option<u32>
        ensures { result ≡ type_of (meaning self.now) value }
    {
        self.tables.value_type(value)
    }

    /// Are all of `values` live?
    pub fn are_live(&self, values: &[Value]) -> bool
        ensures { result ≡ are_values (meaning self.now) values.now }
    {
        self.tables.are_values(values)
    }

    /// The block that an operation lies in.
    pub fn get_parent_block(&self, op: OpId) -> Option<BlockId>
        ensures { result ≡ parent_block_of (meaning self.now) op }
    {
        self.tables.operation(op)?;
        let slot = self.tables.op_lists.get_container(op.slot)?;
        Some(self.tables.block_id(slot))
    }

    /// The operation behind an operation in its block.
    pub fn get_next_operation(&self, op: OpId) -> Option<OpId>
        ensures { result ≡ next_op_of (meaning self.now) op }
    {
        self.tables.operation(op)?;
        let slot = self.tables.op_lists.get_next(op.slot)?;
        Some(self.tables.op_id(slot))
    }

    /// The operation before an operation in its block.
    pub fn get_prev_operation(&self, op: OpId) -> Option<OpId>
        ensures { result ≡ prev_op_of (meaning self.now) op }
    {
        self.tables.operation(op)?;
        let slot = self.tables.op_lists.get_prev(op.slot)?;
        Some(self.tables.op_id(slot))
    }
}
