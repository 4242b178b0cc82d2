//! The rewriter: it changes a store, and tells its listener.
ghost use Rattle.std.specs.Prelude.{◌≡◌, true, false, MatchResult};
ghost use Rattle.calls.specs.World.{fits};
ghost use Rattle.model.specs.declared.refusal.Refusal.TheVariants.{RecordsFull};

use crate::listener::RewriteListener;
use model::points::OpInsertionPoint;
use model::refusal::Refusal;
use walkers::Nodes;

// Stays: the store is lent to each call, as a context is, since rewriters come and go over one store.
/// Where it inserts, whom it tells, and memory for the nodes of a part that it erases.
#[derive(Drop)]
pub struct IRRewriter<L: RewriteListener> {
    point: OpInsertionPoint,
    listener: L,
    part: Nodes,
}

impl<L: RewriteListener> IRRewriter<L> {
    /// Can the listener be told of so many changes more?
    fn room(&self, count: usize) -> Result<(), Refusal>
        ensures { MatchResult result (λ _. fits L.keeps (L.log self.now.listener) count ≡ true) (λ e. (e ≡ RecordsFull) × (fits L.keeps (L.log self.now.listener) count ≡ false)) }
    {
        if !self.listener.takes(count) {
            return Err(Refusal::RecordsFull);
        }
        Ok(())
    }
}

pub mod changing;
pub mod erasures;
pub mod inserting;
pub mod making;
pub mod moving;
pub mod records;
pub mod replacing;
pub mod scoped;
