//! What is live.
ghost use Rattle.std.specs.Prelude.{◌≡◌, ℕ, ◌+◌, ◌≤◌};
ghost use Rattle.slots.specs.Cells.{frees, live_count};
ghost use Rattle.model.specs.Erasing.{is_node};
ghost use Rattle.model.specs.Later.{OneEach};
ghost use Rattle.store.specs.Meaning.{meaning};

use crate::store::Store;
use model::ids::IRNode;

impl Store {
    /// How many operations live: with the slots that are free no more than 512.
    pub fn live_operations(&self) -> usize
        ensures answer { result ≡ live_count (meaning self.now).ops }
        ensures few { frees (meaning self.now).ops + result ≤ 512 }
    {
        self.tables.operations.live_count()
    }

    // Stays: three counts of three tables, each one line under its own bound.
    /// How many blocks live: with the slots that are free no more than 128.
    pub fn live_blocks(&self) -> usize
        ensures answer { result ≡ live_count (meaning self.now).blocks }
        ensures few { frees (meaning self.now).blocks + result ≤ 128 }
    {
        self.tables.blocks.live_count()
    }

    /// How many regions live: with the slots that are free no more than 128.
    pub fn live_regions(&self) -> usize
        ensures answer { result ≡ live_count (meaning self.now).regions }
        ensures few { frees (meaning self.now).regions + result ≤ 128 }
    {
        self.tables.regions.live_count()
    }

    /// Does the node live? Of each slot at most one identity does.
    pub fn is_live(&self, node: IRNode) -> bool
        ensures answer { result ≡ is_node (meaning self.now) node }
        ensures single { OneEach (meaning self.now) }
    {
        match node {
            IRNode::Operation(op) => self.tables.operation(op).is_some(),
            IRNode::BasicBlock(block) => self.tables.basic_block(block).is_some(),
            IRNode::Region(region) => self.tables.region(region).is_some(),
        }
    }
}
