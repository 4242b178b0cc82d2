//! The types that the operands of an operation had.
use histories::TypeHistory;
use model::limits::MAX_OPERANDS;
use row::Row;

mod lookups;

/// The operands in their order, each with the types that it had, the most recent last.
#[derive(Clone, Copy)]
pub struct OperandsInfo {
    operands: Row<TypeHistory, MAX_OPERANDS>,
}
