//! What has to be rewritten before an operation.
ghost use Rattle.std.specs.Prelude.{◌≡◌, ◌&&◌, is_some};
ghost use Rattle.std.specs.Option.{option_to_list};
ghost use Rattle.row.specs.Items.{row_items};
ghost use Rattle.model.specs.Model.{find_op};
ghost use Rattle.store.specs.Meaning.{meaning as model};
ghost use Rattle.law.specs.Lists.{keep, member};
ghost use Rattle.law.specs.Machine.{due, dues, first_due};
ghost use Rattle.rules.specs.Setting.{in_graph, definer_of};
ghost use Rattle.rules_next.specs.Setting.{real};
ghost use Rattle.rules.specs.Driver.{marks_of};
ghost use Rattle.states.specs.States.{states_in};
ghost use Rattle.states.specs.Due.{asked_of, plain};

use crate::states::States;
use conversion::DialectConversion;
use model::ids::{DefiningEntity, OpId, Value};
use model::limits::{MAX_OPERANDS, OPERATIONS};
use row::Row;
use rules_next::interface::OpState;
use store::store::Store;

/// Does `op`, if it is live, lie directly in a graph region?
fn in_graph(store: &Store, op: OpId) -> bool
    ensures { result ≡ (is_some (find_op (model store.now) op) && in_graph (model store.now) op.slot) }
{
    store
        .get_parent_block(op)
        .and_then(|block| store.get_parent_region(block))
        .and_then(|region| store.is_graph(region))
        .unwrap_or(false)
}

/// What questions about operations are put to.
#[derive(Clone, Copy)]
pub struct Asked<'a, C> {
    // Stays: without the operation in hand, which only work's `Setting` has.
    pub store: &'a Store,
    pub conversion: &'a C,
}

impl States {
    /// Is `op` to be rewritten? It is asked only while it is unmarked or queued.
    pub fn is_due<C: DialectConversion>(&self, asked: &Asked<C>, op: OpId) -> bool
        ensures { result ≡ due (real C.meaning) (asked_of asked.now) (marks_of (states_in self.now)) op }
    {
        match self.state(asked.store, op) {
            OpState::Unmarked | OpState::Queued => asked.conversion.can_convert_op(asked.store, op),
            _ => false,
        }
    }

    /// The operation that defines `value`, where it is due and does not lie directly in a graph region.
    fn due_definer<C: DialectConversion>(&self, asked: &Asked<C>, value: Value) -> Option<OpId>
        ensures { option_to_list result ≡ keep (due (real C.meaning) (asked_of asked.now) (marks_of (states_in self.now))) (definer_of (model asked.now.store.now) value.definer) }
    {
        let DefiningEntity::Op(definer) = value.definer else {
            return None;
        };
        let goes_first = self.is_due(asked, definer) && !in_graph(asked.store, definer);
        goes_first.then_some(definer)
    }

    /// For each operand of `op` in order, the operation that defines it, where that is due and does not lie directly in a graph region.
    pub fn due_definers<C: DialectConversion>(
        &self,
        asked: &Asked<C>,
        op: OpId,
    ) -> Row<OpId, MAX_OPERANDS>
        ensures { row_items result ≡ dues (real C.meaning) (asked_of asked.now) (marks_of (states_in self.now)) op }
    {
        let mut found = Row::default();
        let Some(operands) = asked.store.operands(op) else {
            return found;
        };
        for operand in operands {
            if let Some(definer) = self.due_definer(asked, *operand) {
                found.push(definer);
            }
        }
        found
    }

    /// The end of the chain of first due definers that starts at `op`, where it has 512 links or more.
    pub fn beyond<C: DialectConversion>(&self, asked: &Asked<C>, op: OpId) -> Option<OpId>
        ensures { result ≡ plain (member (first_due (real C.meaning) (asked_of asked.now) (marks_of (states_in self.now))) 512 op) }
    {
        let mut link = op;
        // Stays: no index; the chain is followed so many links.
        for _ in 0..OPERATIONS {
            link = self.due_definers(asked, link).get(0)?;
        }
        Some(link)
    }
}
