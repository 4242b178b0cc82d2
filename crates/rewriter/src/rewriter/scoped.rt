//! An insertion point for a while.
ghost use Rattle.std.specs.Prelude.{◌≡◌};
ghost use Rattle.calls.specs.World.{insert};
ghost use Rattle.rewriter.specs.Seen.{Does, told};

use crate::listener::RewriteListener;
use crate::rewriter::IRRewriter;
use model::ids::OpId;
use model::points::OpInsertionPoint;
use model::refusal::Refusal;
use store::store::Store;

/// A rewriter with another insertion point. When it goes, the former point is back.
pub struct ScopedRewriter<'a, L: RewriteListener> {
    rewriter: &'a mut IRRewriter<L>,
    previous: OpInsertionPoint,
}

impl<L: RewriteListener> Drop for ScopedRewriter<'_, L> {
    fn drop(self)
        ensures point { self.exit.0.now.point ≡ self.entry.previous }
        ensures listener { self.exit.0.now.listener ≡ self.entry.rewriter.now.listener }
    {
        self.rewriter.point = self.previous;
        let ScopedRewriter {
            rewriter: _,
            previous: _,
        } = self;
    }
}

impl<'a, L: RewriteListener> ScopedRewriter<'a, L> {
    /// `rewriter`, which inserts at `point` now.
    pub fn new(rewriter: &'a mut IRRewriter<L>, point: OpInsertionPoint) -> ScopedRewriter<'a, L>
        ensures previous { result.previous ≡ rewriter.old.point }
        ensures point { result.rewriter.now.point ≡ point }
        ensures listener { result.rewriter.now.listener ≡ rewriter.old.listener }
        ensures named { result.rewriter.ghost_name ≡ rewriter.entry.ghost_name }
    {
        let previous = rewriter.point;
        rewriter.point = point;
        ScopedRewriter { rewriter, previous }
    }

    /// Puts `op` at the insertion point.
    pub fn insert_operation(&mut self, store: &mut Store, op: OpId) -> Result<(), Refusal>
        ensures call { Does L.keeps L.log store.old self.old.rewriter.now (insert op) store.new self.new.rewriter.now (told result) }
        ensures previous { self.new.previous ≡ self.old.previous }
        ensures named { self.new.rewriter.ghost_name ≡ self.old.rewriter.ghost_name }
    {
        self.rewriter.insert_operation(store, op)
    }
}
