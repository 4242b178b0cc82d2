//! What a table keeps of an operation and of a block.
use model::ids::{RegionId, Value};
use model::limits::{MAX_ARGUMENTS, MAX_OPERANDS, MAX_REGIONS, MAX_RESULTS};
use row::Row;

#[derive(Clone, Copy)]
pub struct Operation {
    pub kind: u16,
    pub note: u32,
    pub operands: Row<Value, MAX_OPERANDS>,
    pub results: Row<u32, MAX_RESULTS>,
    pub regions: Row<RegionId, MAX_REGIONS>,
}

#[derive(Clone, Copy)]
pub struct BasicBlock {
    pub arguments: Row<u32, MAX_ARGUMENTS>,
}
