//! Operations and blocks that a walk meets, or that a record says were inserted.
ghost use Rattle.std.specs.Prelude.{◌≡◌, ◌+◌, ◌^◌, ◌<◌, [], ◌∷◌, ◌++◌, length, is_ok, if◌then◌else◌, nat_eq, nat_lt, IsOkUnless};
ghost use Rattle.law.specs.Machine.{newly};
ghost use Rattle.rules_next.specs.declared.interface.Fault.TheVariants.{Full};
ghost use Rattle.rules_next.specs.Setting.{real};
ghost use Rattle.rules.specs.Driver.{marks_of};
ghost use Rattle.rules_next.specs.Driver.{meet_op, meet_nodes};
ghost use Rattle.states.specs.States.{states_in};
ghost use Rattle.work.specs.Lent.{Same, pending_of, MetBy};
ghost use Rattle.work.specs.Work.{waiting};
ghost use Rattle.work.specs.Setting.{env_of};

use super::Work;
use super::lent::Lent;
use conversion::DialectConversion;
use model::ids::{BlockId, IRNode, OpId};
use rules_next::interface::{Fault, OpEvent, OpState};
use states::States;
use store::store::Store;

/// What is read while operations and blocks are met.
#[derive(Drop)]
pub struct Setting<'a, C> {
    pub store: &'a Store,
    pub conversion: &'a C,
    /// The operation that is being rewritten, if one is.
    pub hand: Option<OpId>,
}

impl<C: DialectConversion> Setting<'_, C> {
    /// Is `op` to be rewritten, and has it no entry?
    fn is_new(&self, states: &States, op: OpId) -> bool
        ensures { result ≡ newly (real C.meaning) (env_of self.now) (marks_of (states_in states.now)) op }
    {
        states.state(self.store, op) == OpState::Unmarked
            && self.conversion.can_convert_op(self.store, op)
    }
}

impl Work {
    /// The argument that the first pending block has come to, also where that is still to come.
    fn first_argument(&self) -> u8
        ensures { result ≡ (if nat_eq self.now.pending.count 0 then 0 else self.now.next_argument) }
    {
        if self.pending.is_empty() {
            0
        } else {
            self.next_argument
        }
    }
}

impl Lent<'_> {
    /// `op` is met: where it is to be rewritten and has no entry, it goes to the back of the worklist. `queued` counts it, unless it is the
    /// one in hand, which was counted before.
    fn meet_op<C: DialectConversion>(
        &mut self,
        setting: &Setting<'_, C>,
        op: OpId,
    ) -> Result<(), Fault>
        requires { self.old.queued.now + 1 < 2 ^ 64 }
        ensures { MetBy (λ room l. meet_op C.meaning (env_of setting.now) room setting.now.hand l op) 1 self.old self.new result }
    {
        if !setting.is_new(&self.work.states, op) {
            return Ok(());
        }
        self.work
            .worklist
            .push_back(self.entries, op)
            .map_err(|_| Fault::Full)?;
        self.work.states.note(setting.store, op, OpEvent::Queued);
        if setting.hand != Some(op) {
            *self.queued += 1;
        }
        Ok(())
    }

    /// `block` is met: its arguments are to be asked about.
    fn meet_block(&mut self, block: BlockId) -> Result<(), Fault>
        ensures same { Same self.old self.new }
        ensures entries { self.new.entries.now ≡ self.old.entries.now }
        ensures queued { self.new.queued.now ≡ self.old.queued.now }
        ensures worklist { self.new.work.now.worklist ≡ self.old.work.now.worklist }
        ensures states { self.new.work.now.states ≡ self.old.work.now.states }
        ensures size { length self.new.blocks.now ≡ length self.old.blocks.now }
        ensures test { is_ok result ≡ nat_lt (length (pending_of self.old)) (length self.old.blocks.now) }
        ensures fault { IsOkUnless result Full }
        ensures pending { pending_of self.new ≡ (if is_ok result then pending_of self.old ++ waiting block ∷ [] else pending_of self.old) }
    {
        self.work.next_argument = self.work.first_argument();
        self.work
            .pending
            .push_back(self.blocks, block)
            .map_err(|_| Fault::Full)
    }

    /// `node` is met. What lies in a region is met by itself.
    pub fn meet_node<C: DialectConversion>(
        &mut self,
        setting: &Setting<'_, C>,
        node: IRNode,
    ) -> Result<(), Fault>
        requires room { self.old.queued.now + 1 < 2 ^ 64 }
        ensures { MetBy (λ room l. meet_nodes C.meaning (env_of setting.now) room setting.now.hand l (node ∷ [])) 1 self.old self.new result }
    {
        match node {
            IRNode::Operation(op) => self.meet_op(setting, op),
            IRNode::BasicBlock(block) => self.meet_block(block),
            IRNode::Region(_) => Ok(()),
        }
    }

    /// `nodes` are met, in their order, until there is no room for one.
    pub fn meet_nodes<C: DialectConversion>(
        &mut self,
        setting: &Setting<'_, C>,
        nodes: &[IRNode],
    ) -> Result<(), Fault>
        requires room { self.old.queued.now + length nodes.now < 2 ^ 64 }
        ensures { MetBy (λ room l. meet_nodes C.meaning (env_of setting.now) room setting.now.hand l nodes.now) (length nodes.now) self.old self.new result }
    {
        for node in nodes {
            self.meet_node(setting, *node)?;
        }
        Ok(())
    }
}
