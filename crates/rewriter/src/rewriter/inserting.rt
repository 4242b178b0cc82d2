//! Putting operations and blocks into a store.
ghost use Rattle.calls.specs.World.{insert, append, create, created};
ghost use Rattle.rewriter.specs.Seen.{Does, answered, told};

use crate::listener::RewriteListener;
use crate::rewriter::IRRewriter;
use calls::events::RecorderEvent;
use model::ids::{BlockId, OpId};
use model::points::{BlockInsertionPoint, OpInsertionPoint};
use model::refusal::Refusal;
use store::store::Store;

impl<L: RewriteListener> IRRewriter<L> {
    /// Puts `op` at the insertion point, which stays where it is.
    pub fn insert_operation(&mut self, store: &mut Store, op: OpId) -> Result<(), Refusal>
        ensures { Does L.keeps L.log store.old self.old (insert op) store.new self.new (told result) }
    {
        store.check_insert(self.point, op)?;
        self.room(1)?;
        store.link_operation(self.point, op);
        self.listener.notify(RecorderEvent::InsertedOperation(op));
        Ok(())
    }

    /// Puts `op` at the insertion point, which moves behind it.
    pub fn append_operation(&mut self, store: &mut Store, op: OpId) -> Result<(), Refusal>
        ensures { Does L.keeps L.log store.old self.old (append op) store.new self.new (told result) }
    {
        self.insert_operation(store, op)?;
        self.point = OpInsertionPoint::AfterOperation(op);
        Ok(())
    }

    /// Makes a block at `point`; the insertion point moves to its end.
    pub fn create_block(
        &mut self,
        store: &mut Store,
        point: BlockInsertionPoint,
        arg_types: &[u32],
    ) -> Result<BlockId, Refusal>
        ensures { Does L.keeps L.log store.old self.old (create point arg_types.now) store.new self.new (answered created result) }
    {
        store.check_create(point, arg_types)?;
        self.room(1)?;
        let block = store.place_block(point, arg_types);
        self.listener.notify(RecorderEvent::InsertedBlock(block));
        self.point = OpInsertionPoint::AtBlockEnd(block);
        Ok(block)
    }
}
