//! A batch of records: what was erased and what was inserted.
ghost use Rattle.std.specs.Prelude.{◌≡◌, ◌+◌, ◌^◌, ◌<◌, length};
ghost use Rattle.std.specs.Option.{option_to_list};
ghost use Rattle.store.specs.Meaning.{meaning as model};
ghost use Rattle.rules.specs.Setting.{block_erased, inserted_by, inserted};
ghost use Rattle.rules_next.specs.Driver.{mark_erased, mark_all_erased, meet_nodes};
ghost use Rattle.states.specs.States.{states_in};
ghost use Rattle.work.specs.Lent.{MetBy};
ghost use Rattle.work.specs.Setting.{env_of};

use super::lent::Lent;
use super::meeting::Setting;
use calls::events::RecorderEvent;
use conversion::DialectConversion;
use model::ids::{BlockId, IRNode, OpId};
use rules_next::interface::{Fault, OpEvent};
use states::States;
use store::store::Store;

/// Marks the operation that `event` says was erased, if it says so.
fn mark_erased(states: &mut States, store: &Store, event: RecorderEvent)
    ensures { states_in states.new ≡ mark_erased (model store.now) (states_in states.old) event }
{
    if let RecorderEvent::ErasedOperation(op) = event {
        states.note(store, op, OpEvent::Erased);
    }
}

/// Marks every operation that `events` say was erased.
pub fn mark_all_erased(states: &mut States, store: &Store, events: &[RecorderEvent])
    ensures { states_in states.new ≡ mark_all_erased (model store.now) (states_in states.old) events.now }
{
    for event in events {
        mark_erased(states, store, *event);
    }
}

/// Does one of `events` say that `block` was erased?
fn block_erased(events: &[RecorderEvent], block: BlockId) -> bool
    ensures { result ≡ block_erased events.now block }
{
    events.contains(&RecorderEvent::ErasedBlock(block))
}

/// The operation or the block that `event` says was inserted; a block that `events` say was erased is left out.
fn inserted_node(events: &[RecorderEvent], event: RecorderEvent) -> Option<IRNode>
    ensures { option_to_list result ≡ inserted_by events.now event }
{
    match event {
        RecorderEvent::InsertedOperation(op) => Some(IRNode::Operation(op)),
        RecorderEvent::InsertedBlock(block) if !block_erased(events, block) => {
            Some(IRNode::BasicBlock(block))
        }
        _ => None,
    }
}

impl Lent<'_> {
    // Stays: the room that a call asks of `queued` shrinks by what it meets, so no field of `Lent` can hold it.
    /// What `event`, one of `events`, says was inserted is met.
    fn meet_event<C: DialectConversion>(
        &mut self,
        setting: &Setting<'_, C>,
        events: &[RecorderEvent],
        event: RecorderEvent,
    ) -> Result<(), Fault>
        requires room { self.old.queued.now + 1 < 2 ^ 64 }
        ensures { MetBy (λ room l. meet_nodes C.meaning (env_of setting.now) room setting.now.hand l (inserted_by events.now event)) 1 self.old self.new result }
    {
        match inserted_node(events, event) {
            Some(node) => self.meet_node(setting, node),
            None => Ok(()),
        }
    }

    /// What `events` say was inserted is met, in their order, until there is no room for one.
    pub fn meet_inserted<C: DialectConversion>(
        &mut self,
        setting: &Setting<'_, C>,
        events: &[RecorderEvent],
    ) -> Result<(), Fault>
        requires room { self.old.queued.now + length events.now < 2 ^ 64 }
        ensures { MetBy (λ room l. meet_nodes C.meaning (env_of setting.now) room setting.now.hand l (inserted events.now)) (length events.now) self.old self.new result }
    {
        for event in events {
            self.meet_event(setting, events, *event)?;
        }
        Ok(())
    }
}
