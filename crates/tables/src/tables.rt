//! The tables of a store, with no invariant over them.
use crate::records::{BasicBlock, Operation};
use lists::lists::LinkedLists;
use model::ids::Region;
use slots::Table;

#[derive(Drop)]
pub struct Tables {
    // Stays: no ghost field for the sizes, since tables of any sizes can be made; so each change says that they stay.
    pub operations: Table<Operation>,
    pub blocks: Table<BasicBlock>,
    pub regions: Table<Region>,
    /// The operations in blocks.
    pub op_lists: LinkedLists,
    /// The blocks in regions.
    pub block_lists: LinkedLists,
}

pub mod changes;
pub mod links;
pub mod makes;
pub mod news;
pub mod opens;
pub mod points;
pub mod reads;
