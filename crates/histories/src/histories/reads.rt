//! Making, and what values had.
ghost use Rattle.std.specs.Prelude.{◌≡◌, ◌≤◌, [], map, length, IfOk};
ghost use Rattle.row.specs.Items.{row_items};
ghost use Rattle.rules.specs.Histories.{types_had};
ghost use Rattle.rules_next.specs.Histories.{history_of};
ghost use Rattle.histories.specs.Kept.{history, histories};
ghost use Rattle.histories.specs.Many.{kept};

use super::Histories;
use crate::history::{MAX_HISTORIES, TypeHistory};
use crate::lookups::{find, types_had};
use model::ids::Value;
use model::limits::MAX_OPERANDS;
use row::Row;
use std::alloc::{AllocError, Global};

impl Histories {
    /// No history. Nothing is allocated after this.
    pub fn new(heap: Global) -> Result<Histories, AllocError>
        ensures { IfOk result (λ h. kept h ≡ []) }
    {
        let entries = Vec::with_capacity(heap, MAX_HISTORIES)?;
        Ok(Histories { entries })
    }

    /// Lets all histories go.
    pub fn clear(&mut self)
        ensures { kept self.new ≡ [] }
    {
        self.entries.clear();
    }

    /// The types that `value` had, the most recent last; none where none was kept.
    pub fn types_had(&self, value: Value) -> &[u32]
        ensures value { result.now ≡ types_had (kept self.now) value }
        ensures count { length result.now ≤ 16 }
    {
        types_had(self.entries.as_slice(), value)
    }

    /// `value` with the types that it had.
    pub fn history_of(&self, value: Value) -> TypeHistory
        ensures { history result ≡ history_of (kept self.now) value }
    {
        let found = find(self.entries.as_slice(), value);
        let types = found.map_or(Row::default(), |entry| entry.types);
        TypeHistory { value, types }
    }

    /// Each of `operands` with the types that it had.
    pub fn of_operands(&self, operands: &[Value]) -> Row<TypeHistory, MAX_OPERANDS>
        requires { length operands.now ≤ 8 }
        ensures { histories (row_items result) ≡ map (history_of (kept self.now)) operands.now }
    {
        let mut all = Row::default();
        for operand in operands {
            all.push(self.history_of(*operand));
        }
        all
    }
}
