//! Taking operations out of their blocks, and moving them.
ghost use Rattle.calls.specs.World.{unlink, move};
ghost use Rattle.rewriter.specs.Seen.{Does, told};

use crate::listener::RewriteListener;
use crate::rewriter::IRRewriter;
use crate::rewriter::scoped::ScopedRewriter;
use calls::events::RecorderEvent;
use model::ids::OpId;
use model::points::OpInsertionPoint;
use model::refusal::Refusal;
use store::store::Store;

impl<L: RewriteListener> IRRewriter<L> {
    /// Takes `op` out of its block.
    pub fn unlink_operation(&mut self, store: &mut Store, op: OpId) -> Result<(), Refusal>
        ensures { Does L.keeps L.log store.old self.old (unlink op) store.new self.new (told result) }
    {
        store.check_unlink(op)?;
        self.room(1)?;
        let old_place = store.old_place(op);
        self.listener
            .notify(RecorderEvent::UnlinkedOperation(op, old_place));
        store.unlink_operation(op)
    }

    /// Moves `op` to `point`; the insertion point stays where it is.
    pub fn move_operation(
        &mut self,
        store: &mut Store,
        op: OpId,
        point: OpInsertionPoint,
    ) -> Result<(), Refusal>
        ensures { Does L.keeps L.log store.old self.old (move op point) store.new self.new (told result) }
    {
        store.check_move(op, point)?;
        self.room(2)?;
        self.unlink_operation(store, op)?;
        let mut scoped = ScopedRewriter::new(self, point);
        scoped.insert_operation(store, op)
    }
}
