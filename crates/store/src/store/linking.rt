//! Making blocks, putting operations into them, and taking them out.
ghost use Rattle.std.specs.Prelude.{◌≡◌, ℕ, ◌+◌, ◌<◌, ◌≤◌, Some, None, MatchResult};
ghost use Rattle.model.specs.Calls.{unlink_refusal, unlink_at};
ghost use Rattle.model.specs.Points.{create_refusal, Created, insert_refusal, inserted_at};
ghost use Rattle.model.specs.Later.{Later};
ghost use Rattle.model.specs.Refusals.{verdict};
ghost use Rattle.store.specs.Meaning.{meaning};

use crate::store::Store;
use model::ids::{BlockId, OpId};
use model::points::{BlockInsertionPoint, OpInsertionPoint};
use model::refusal::Refusal;
use row::Row;
use std::convert::TryFrom;

impl Store {
    /// May a block be made at `point`? If not, why.
    pub fn check_create(&self, point: BlockInsertionPoint, arg_types: &[u32]) -> Result<(), Refusal>
        ensures { result ≡ verdict (create_refusal (meaning self.now) point arg_types.now) }
    {
        self.tables.check_create(point, arg_types)
    }

    /// Makes a block at `point`, where nothing is against it.
    pub fn place_block(&mut self, point: BlockInsertionPoint, arg_types: &[u32]) -> BlockId
        requires { create_refusal (meaning self.old) point arg_types.now ≡ None }
        ensures { Created (meaning self.old) (meaning self.new) point arg_types.now result }
    {
        let slot = self.tables.blocks.free_slot().unwrap();
        let arguments = Row::try_from(arg_types).unwrap();
        self.tables.create(slot, point, arguments)
    }

    /// Makes a block at `point`, with arguments of these types.
    pub fn create_block(
        &mut self,
        point: BlockInsertionPoint,
        arg_types: &[u32],
    ) -> Result<BlockId, Refusal>
        ensures answer { MatchResult result (λ b. Created (meaning self.old) (meaning self.new) point arg_types.now b) (λ e. (create_refusal (meaning self.old) point arg_types.now ≡ Some e) × (meaning self.new ≡ meaning self.old)) }
        ensures later { Later (meaning self.old) (meaning self.new) }
    {
        self.check_create(point, arg_types)?;
        Ok(self.place_block(point, arg_types))
    }

    /// May `op` be put at `point`? If not, why.
    pub fn check_insert(&self, point: OpInsertionPoint, op: OpId) -> Result<(), Refusal>
        ensures { result ≡ verdict (insert_refusal (meaning self.now) point op) }
    {
        self.tables.check_insert(point, op)
    }

    /// Puts `op` at `point`, where nothing is against it.
    pub fn link_operation(&mut self, point: OpInsertionPoint, op: OpId)
        requires { insert_refusal (meaning self.old) point op ≡ None }
        ensures { meaning self.new ≡ inserted_at (meaning self.old) point op.slot }
    {
        self.tables.insert(point, op.slot);
    }

    /// Puts `op`, which lies in no block, at `point`.
    pub fn insert_operation(&mut self, point: OpInsertionPoint, op: OpId) -> Result<(), Refusal>
        ensures answer { MatchResult result (λ _. (insert_refusal (meaning self.old) point op ≡ None) × (meaning self.new ≡ inserted_at (meaning self.old) point op.slot)) (λ e. (insert_refusal (meaning self.old) point op ≡ Some e) × (meaning self.new ≡ meaning self.old)) }
        ensures later { Later (meaning self.old) (meaning self.new) }
    {
        self.check_insert(point, op)?;
        self.link_operation(point, op);
        Ok(())
    }

    /// Takes `op` out of its block.
    pub fn unlink_operation(&mut self, op: OpId) -> Result<(), Refusal>
        ensures answer { MatchResult result (λ _. (unlink_refusal (meaning self.old) op ≡ None) × (meaning self.new ≡ unlink_at (meaning self.old) op.slot ((meaning self.old).home_of op.slot))) (λ e. (unlink_refusal (meaning self.old) op ≡ Some e) × (meaning self.new ≡ meaning self.old)) }
        ensures later { Later (meaning self.old) (meaning self.new) }
    {
        self.tables.check_unlink(op)?;
        self.tables.unlink(op.slot);
        Ok(())
    }
}
