//! Reading and moving states.
ghost use Rattle.std.specs.Prelude.{◌≡◌, IfOk};
ghost use Rattle.store.specs.Meaning.{meaning};
ghost use Rattle.law.specs.Machine.{is_unmarked};
ghost use Rattle.rules.specs.Driver.{kept_state, state_of, marks_of};
ghost use Rattle.rules_next.specs.Driver.{noted};
ghost use Rattle.states.specs.States.{states_in, unmarked_all};

use super::States;
use model::ids::{IRNode, OpId};
use model::limits::OPERATIONS;
use rules_next::interface::{OpEvent, OpState, StateEntry};
use std::alloc::{AllocError, Global};
use store::store::Store;

impl States {
    /// Every operation is unmarked. All memory is taken here.
    pub fn new(heap: Global) -> Result<States, AllocError>
        ensures { IfOk result (λ s. states_in s ≡ unmarked_all) }
    {
        let entries = vec![in heap; StateEntry::default(); OPERATIONS]?;
        Ok(States { entries })
    }

    /// Every operation is unmarked again.
    pub fn clear(&mut self)
        ensures { states_in self.new ≡ unmarked_all }
    {
        self.entries.fill(StateEntry::default());
    }

    /// The state that is kept of `op`, whether it is live or not.
    fn kept(&self, op: OpId) -> OpState
        ensures { result ≡ kept_state (states_in self.now) op }
    {
        match self.entries.get(op.slot) {
            Some(entry) if entry.generation == op.generation => entry.state,
            _ => OpState::Unmarked,
        }
    }

    /// Has `op` no mark? What is not live is not looked at.
    pub fn is_unmarked(&self, op: OpId) -> bool
        ensures { result ≡ is_unmarked (marks_of (states_in self.now) op) }
    {
        self.kept(op) == OpState::Unmarked
    }

    /// The state of `op`: one that is not live is erased.
    pub fn state(&self, store: &Store, op: OpId) -> OpState
        ensures { result ≡ state_of (meaning store.now) (states_in self.now) op }
    {
        // Stays: a rule of the project, let-else settles a dead identity.
        let Some(_) = store.kind(op) else {
            return OpState::Erased;
        };
        self.kept(op)
    }

    /// `event` happens to `op`. Of one that is dead nothing is kept where its slot keeps the state of another.
    pub fn note(&mut self, store: &Store, op: OpId, event: OpEvent)
        ensures { states_in self.new ≡ noted (meaning store.now) (states_in self.old) op event }
    {
        let state = self.kept(op).moved(event);
        let Some(entry) = self.entries.get_mut(op.slot) else {
            return;
        };
        if entry.generation == op.generation || store.is_live(IRNode::Operation(op)) {
            *entry = StateEntry {
                generation: op.generation,
                state,
            };
        }
    }
}
