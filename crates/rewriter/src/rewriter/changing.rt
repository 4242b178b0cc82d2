//! Changing values.
ghost use Rattle.calls.specs.World.{set_type, replace_uses};
ghost use Rattle.rewriter.specs.Seen.{Does, told};

use crate::listener::RewriteListener;
use crate::rewriter::IRRewriter;
use calls::events::RecorderEvent;
use model::ids::Value;
use model::refusal::Refusal;
use store::store::Store;

impl<L: RewriteListener> IRRewriter<L> {
    /// `value` has the type `to`. Where it has it already, nothing is done or told.
    pub fn set_value_type(
        &mut self,
        store: &mut Store,
        value: Value,
        to: u32,
    ) -> Result<(), Refusal>
        ensures { Does L.keeps L.log store.old self.old (set_type value to) store.new self.new (told result) }
    {
        let Some(from) = store.value_type(value) else {
            return Err(Refusal::NotLive);
        };
        if from == to {
            return Ok(());
        }
        self.room(1)?;
        self.listener
            .notify(RecorderEvent::ValueTypeChanged(value, from, to));
        store.set_value_type(value, to)
    }

    /// Each operand that is `old` becomes `new`. Where the two are one, nothing is done or told.
    pub fn replace_value_uses_with(
        &mut self,
        store: &mut Store,
        old: Value,
        new: Value,
    ) -> Result<(), Refusal>
        ensures { Does L.keeps L.log store.old self.old (replace_uses old new) store.new self.new (told result) }
    {
        let Some(from) = store.value_type(old) else {
            return Err(Refusal::NotLive);
        };
        if store.value_type(new).is_none() {
            return Err(Refusal::NotLive);
        }
        if old == new {
            return Ok(());
        }
        self.room(1)?;
        self.listener
            .notify(RecorderEvent::ReplacedValueUses(old, from, new));
        store.replace_all_uses(old, new)
    }
}
