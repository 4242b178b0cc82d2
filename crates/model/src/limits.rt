//! How much a store holds.

/// So many operations live at once.
pub const OPERATIONS: usize = 512;
/// So many blocks live at once.
pub const BLOCKS: usize = 128;
/// So many regions live at once.
pub const REGIONS: usize = 128;
/// At most so many operands has an operation.
pub const MAX_OPERANDS: usize = 8;
/// At most so many results has an operation.
pub const MAX_RESULTS: usize = 4;
/// At most so many regions has an operation.
pub const MAX_REGIONS: usize = 4;
/// At most so many arguments has a block.
pub const MAX_ARGUMENTS: usize = 8;
