//! Changing values.
ghost use Rattle.std.specs.Prelude.{◌≡◌, true, Some, None, MatchResult};
ghost use Rattle.model.specs.Model.{is_value};
ghost use Rattle.model.specs.Calls.{type_refusal, typed_at, replace_refusal, replace_all};
ghost use Rattle.model.specs.Later.{Later};
ghost use Rattle.store.specs.Meaning.{meaning};

use crate::store::Store;
use model::ids::Value;
use model::refusal::Refusal;

impl Store {
    /// `value` has the type `to`.
    pub fn set_value_type(&mut self, value: Value, to: u32) -> Result<(), Refusal>
        ensures answer { MatchResult result (λ _. (type_refusal (meaning self.old) value ≡ None) × (meaning self.new ≡ typed_at (meaning self.old) value.definer value.index to)) (λ e. (type_refusal (meaning self.old) value ≡ Some e) × (meaning self.new ≡ meaning self.old)) }
        ensures later { Later (meaning self.old) (meaning self.new) }
    {
        if !self.tables.is_value(value) {
            return Err(Refusal::NotLive);
        }
        self.tables.set_value_type(value, to);
        Ok(())
    }

    /// Each operand that is `old` becomes `new`, which is live.
    pub fn replace_uses(&mut self, old: Value, new: Value)
        requires { is_value (meaning self.old) new ≡ true }
        ensures { meaning self.new ≡ replace_all (meaning self.old) old new }
    {
        self.tables.replace_all_uses(old, new);
    }

    /// Each operand that is `old` becomes `new`.
    pub fn replace_all_uses(&mut self, old: Value, new: Value) -> Result<(), Refusal>
        ensures answer { MatchResult result (λ _. (replace_refusal (meaning self.old) old new ≡ None) × (meaning self.new ≡ replace_all (meaning self.old) old new)) (λ e. (replace_refusal (meaning self.old) old new ≡ Some e) × (meaning self.new ≡ meaning self.old)) }
        ensures later { Later (meaning self.old) (meaning self.new) }
    {
        if !self.tables.is_value(old) || !self.tables.is_value(new) {
            return Err(Refusal::NotLive);
        }
        self.replace_uses(old, new);
        Ok(())
    }
}
