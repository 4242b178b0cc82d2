//! The walk over what an operation holds.
ghost use Rattle.std.specs.Prelude.{◌≡◌, false, is_some, MatchResult};
ghost use Rattle.model.specs.Model.{find_op};
ghost use Rattle.model.specs.Walk.{Walked};
ghost use Rattle.model.specs.declared.refusal.Refusal.TheVariants.{NotLive};
ghost use Rattle.walkers.specs.Listed.{nodes_in};
ghost use Rattle.store.specs.Meaning.{meaning};

use crate::store::Store;
use model::ids::OpId;
use model::refusal::Refusal;
use walkers::Nodes;
use walkers::walkers::walk_op;

impl Store {
    /// Meets `op` and all that lies in it; `met` holds just these nodes afterwards, in the order of the walk.
    pub fn walk(&self, op: OpId, met: &mut Nodes) -> Result<(), Refusal>
        ensures { MatchResult result (λ _. Walked (meaning self.now) op (nodes_in met.new)) (λ e. (is_some (find_op (meaning self.now) op) ≡ false) × (e ≡ NotLive) × (nodes_in met.new ≡ nodes_in met.old)) }
    {
        if self.tables.operation(op).is_none() {
            return Err(Refusal::NotLive);
        }
        met.clear();
        walk_op(&self.tables, op.slot, met);
        Ok(())
    }
}
