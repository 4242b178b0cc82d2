//! An operation that waits for what defines its operands.
ghost use Rattle.std.specs.Prelude.{◌≡◌, ◌≤◌, not, ◌&&◌, ◌++◌, length, is_ok, if◌then◌else◌, nat_le, IsOkUnless};
ghost use Rattle.queue.specs.Contents.{contents, Within};
ghost use Rattle.store.specs.Meaning.{meaning as model};
ghost use Rattle.rules.specs.declared.interface.OpEvent.TheVariants.{Queued};
ghost use Rattle.rules_next.specs.declared.interface.Fault.TheVariants.{Full};
ghost use Rattle.law.specs.Machine.{is_unmarked};
ghost use Rattle.rules.specs.Driver.{marks_of};
ghost use Rattle.rules_next.specs.Rules.{noted_all};
ghost use Rattle.states.specs.States.{states_in};
ghost use Rattle.work.specs.Waiting.{among, fresh_ops};

use super::Work;
use model::ids::OpId;
use rules_next::interface::{Fault, OpEvent};
use states::States;
use store::store::Store;

/// Is `op` unmarked, and none of `before`?
fn is_fresh(states: &States, before: &[OpId], op: OpId) -> bool
    ensures { result ≡ (not (among before.now op) && is_unmarked (marks_of (states_in states.now) op)) }
{
    !before.contains(&op) && states.is_unmarked(op)
}

/// How many different ones of `ops` are unmarked.
pub fn count_fresh(states: &States, ops: &[OpId]) -> usize
    ensures value { result ≡ fresh_ops (marks_of (states_in states.now)) ops.now }
    ensures few { result ≤ length ops.now }
{
    // Stays: counted in a loop; inside a filter's closure it is not known that `i` is within `ops`.
    let mut count = 0;
    for (i, op) in ops.iter().enumerate() {
        if is_fresh(states, &ops[..i], *op) {
            count += 1;
        }
    }
    count
}

impl Work {
    /// Lays `ops` before the worklist, the first foremost, and all of them become queued. Where there is no room for all, nothing is laid.
    pub fn lay_front(
        &mut self,
        entries: &mut [OpId],
        store: &Store,
        ops: &[OpId],
    ) -> Result<(), Fault>
        requires { Within self.old.worklist entries.old }
        ensures within { Within self.new.worklist entries.new }
        ensures size { length entries.new ≡ length entries.old }
        ensures pending { self.new.pending ≡ self.old.pending }
        ensures argument { self.new.next_argument ≡ self.old.next_argument }
        ensures test { is_ok result ≡ nat_le (length (ops.now ++ contents self.old.worklist entries.old)) (length entries.old) }
        ensures fault { IsOkUnless result Full }
        ensures worklist { contents self.new.worklist entries.new ≡ (if is_ok result then ops.now ++ contents self.old.worklist entries.old else contents self.old.worklist entries.old) }
        ensures states { states_in self.new.states ≡ (if is_ok result then noted_all (model store.now) (states_in self.old.states) ops.now Queued else states_in self.old.states) }
    {
        if ops.len() > entries.len() - self.worklist.len() {
            return Err(Fault::Full);
        }
        for op in ops.iter().rev() {
            self.worklist.push_front(entries, *op).unwrap();
            self.states.note(store, *op, OpEvent::Queued);
        }
        Ok(())
    }
}
