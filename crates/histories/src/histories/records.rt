//! What records tell of the types that values had.
ghost use Rattle.std.specs.Prelude.{◌≡◌, ◌≤◌, length, is_some, is_ok, if◌then◌else◌, nat_le};
ghost use Rattle.std.specs.Option.{unwrap_or};
ghost use Rattle.row.specs.Items.{row_items};
ghost use Rattle.rules.specs.Histories.{types_had, drop_types, add_type, add_types, changed_type, gone_over, within_limits, recorded};
ghost use Rattle.histories.specs.Kept.{size_with};
ghost use Rattle.histories.specs.Many.{kept};

use super::Histories;
use crate::history::{HistoryFull, MAX_HISTORIES};
use crate::joining::{JOINED_TYPES, add_type, add_types};
use calls::events::RecorderEvent;
use model::ids::Value;
use row::Row;
use std::convert::TryFrom;

impl Histories {
    /// The types that `value` had, none where it is the value `gone`.
    fn types_left(&self, gone: Value, value: Value) -> Row<u32, JOINED_TYPES>
        ensures types { row_items result ≡ types_had (drop_types (kept self.now) gone) value }
        ensures count { length (row_items result) ≤ 16 }
    {
        if value == gone {
            return Row::default();
        }
        Row::try_from(self.types_had(value)).unwrap()
    }

    /// The types that `new` had, when those of `old` with `ty` at their end have gone over to it.
    fn types_over(&self, old: Value, ty: u32, new: Value) -> Row<u32, JOINED_TYPES>
        ensures { row_items result ≡ add_types (types_had (drop_types (kept self.now) old) new) (add_type (types_had (kept self.now) old) ty) }
    {
        let more = add_type(self.types_had(old), ty);
        add_types(self.types_left(old, new), more.as_slice())
    }

    /// Is there a place for a history of `new` once that of `old` has gone?
    fn has_room(&self, old: Value, new: Value) -> bool
        ensures { result ≡ nat_le (size_with (drop_types (kept self.now) old) new) 1024 }
    {
        self.is_kept(old) || self.size_with(new) <= MAX_HISTORIES
    }

    /// `value` had the type `ty` too. Where that passes a limit, nothing changes.
    fn change_type(&mut self, value: Value, ty: u32) -> Result<(), HistoryFull>
        ensures test { is_ok result ≡ within_limits (changed_type (kept self.old) value ty) value }
        ensures after { kept self.new ≡ (if is_ok result then changed_type (kept self.old) value ty else kept self.old) }
    {
        let all = add_type(self.types_had(value), ty);
        let types = Row::try_from(all.as_slice())?;
        if self.size_with(value) > MAX_HISTORIES {
            return Err(HistoryFull);
        }
        self.put_types(value, types);
        Ok(())
    }

    /// What `old` had, with its type `ty`, goes over to `new`. Where that passes a limit, nothing changes.
    fn go_over(&mut self, old: Value, ty: u32, new: Value) -> Result<(), HistoryFull>
        ensures test { is_ok result ≡ within_limits (gone_over (kept self.old) old ty new) new }
        ensures after { kept self.new ≡ (if is_ok result then gone_over (kept self.old) old ty new else kept self.old) }
    {
        let all = self.types_over(old, ty, new);
        let types = Row::try_from(all.as_slice())?;
        if !self.has_room(old, new) {
            return Err(HistoryFull);
        }
        self.drop_types(old);
        self.put_types(new, types);
        Ok(())
    }

    /// Keeps what a record tells of types. Where that passes a limit, nothing changes.
    pub fn record(&mut self, event: RecorderEvent) -> Result<(), HistoryFull>
        ensures test { is_ok result ≡ is_some (recorded (kept self.old) event) }
        ensures after { kept self.new ≡ unwrap_or (recorded (kept self.old) event) (kept self.old) }
    {
        match event {
            RecorderEvent::ReplacedValueUses(old, ty, new) => self.go_over(old, ty, new),
            RecorderEvent::ValueTypeChanged(value, ty, _) => self.change_type(value, ty),
            _ => Ok(()),
        }
    }
}
