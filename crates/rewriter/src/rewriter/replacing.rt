//! Replacing an operation by values.
ghost use Rattle.std.specs.Prelude.{◌≡◌, true, [], ◌∷◌, ◌++◌, length};
ghost use Rattle.model.specs.declared.ids.IRNode.TheVariants.{Operation};
ghost use Rattle.model.specs.Model.{is_value, are_values};
ghost use Rattle.model.specs.Calls.{replace_all, replace_each};
ghost use Rattle.model.specs.Erasing.{part_of};
ghost use Rattle.model.specs.Refusals.{verdict};
ghost use Rattle.walkers.specs.Listed.{nodes_in};
ghost use Rattle.store.specs.Meaning.{meaning};
ghost use Rattle.calls.specs.declared.events.RecorderEvent.TheVariants.{ReplacedValueUses};
ghost use Rattle.calls.specs.World.{replace_with, replace_by, kept, fits};
ghost use Rattle.calls.specs.Refusing.{exchange_refusal};
ghost use Rattle.calls.specs.Perform.{type_now, replacing};
ghost use Rattle.rewriter.specs.Seen.{Does, told};

use crate::listener::RewriteListener;
use crate::rewriter::IRRewriter;
use crate::rewriter::erasures::notify_erasures;
use calls::events::RecorderEvent;
use erasing::uses::some_defined;
use model::ids::{IRNode, OpId, Value};
use model::refusal::Refusal;
use store::store::Store;
use walkers::Nodes;

/// `new` is used in place of `old`, and `listener` is told.
fn replace_value<L: RewriteListener>(store: &mut Store, listener: &mut L, old: Value, new: Value)
    requires old { is_value (meaning store.old) old ≡ true }
    requires new { is_value (meaning store.old) new ≡ true }
    requires room { fits L.keeps (L.log listener.old) 1 ≡ true }
    ensures store { meaning store.new ≡ replace_all (meaning store.old) old new }
    ensures log { L.log listener.new ≡ L.log listener.old ++ kept L.keeps (ReplacedValueUses old (type_now (meaning store.old) old) new ∷ []) }
{
    let from = store.value_type(old).unwrap();
    listener.notify(RecorderEvent::ReplacedValueUses(old, from, new));
    store.replace_uses(old, new);
}

/// Each of `olds`, in order, gives way to the one of `news` in the same place, and `listener` is told.
fn replace_each<L: RewriteListener>(
    store: &mut Store,
    listener: &mut L,
    olds: &[Value],
    news: &[Value],
)
    requires olds { are_values (meaning store.old) olds.now ≡ true }
    requires news { are_values (meaning store.old) news.now ≡ true }
    requires room { fits L.keeps (L.log listener.old) (length olds.now) ≡ true }
    ensures store { meaning store.new ≡ replace_each (meaning store.old) olds.now news.now }
    ensures log { L.log listener.new ≡ L.log listener.old ++ kept L.keeps (replacing (meaning store.old) olds.now news.now) }
{
    for (old, new) in olds.iter().zip(news) {
        replace_value(store, listener, *old, *new);
    }
}

/// May `values`, which are live, take the place of `op`, whose part is `part`? If not, why.
fn check_exchange(store: &Store, op: OpId, part: &Nodes, values: &[Value]) -> Result<(), Refusal>
    requires { nodes_in part.now ≡ part_of (meaning store.now) (Operation op) }
    ensures { result ≡ verdict (exchange_refusal (meaning store.now) op values.now) }
{
    let results = store.results(op);
    if results.len() != values.len() {
        return Err(Refusal::CountsDiffer);
    }
    if store.used_after(part, results.as_slice(), values) {
        return Err(Refusal::StillUsed);
    }
    if some_defined(part.as_slice(), values) {
        return Err(Refusal::OwnValue);
    }
    Ok(())
}

impl<L: RewriteListener> IRRewriter<L> {
    /// `values` are used in place of the results of `op`, in their order; then `op` is erased with all that lies in it.
    pub fn replace_operation_with_values(
        &mut self,
        store: &mut Store,
        op: OpId,
        values: &[Value],
    ) -> Result<(), Refusal>
        ensures { Does L.keeps L.log store.old self.old (replace_with op values.now) store.new self.new (told result) }
    {
        store.list_part(IRNode::Operation(op), &mut self.part)?;
        if !store.are_live(values) {
            return Err(Refusal::NotLive);
        }
        check_exchange(store, op, &self.part, values)?;
        let results = store.results(op);
        self.room(results.len() + self.part.len())?;
        replace_each(store, &mut self.listener, results.as_slice(), values);
        notify_erasures(&mut self.listener, self.part.as_slice());
        store.erase_part(&self.part);
        Ok(())
    }

    /// The results of `new_op` are used in place of those of `op`; then `op` is erased with all that lies in it.
    pub fn replace_operation(
        &mut self,
        store: &mut Store,
        op: OpId,
        new_op: OpId,
    ) -> Result<(), Refusal>
        ensures { Does L.keeps L.log store.old self.old (replace_by op new_op) store.new self.new (told result) }
    {
        if !store.is_live(IRNode::Operation(new_op)) {
            return Err(Refusal::NotLive);
        }
        let values = store.results(new_op);
        self.replace_operation_with_values(store, op, values.as_slice())
    }
}
