//! Erasing.
ghost use Rattle.std.specs.Prelude.{◌≡◌, true, ◌++◌, map, length};
ghost use Rattle.calls.specs.World.{erase, kept, fits};
ghost use Rattle.calls.specs.Perform.{erasing};
ghost use Rattle.model.specs.declared.ids.IRNode.TheVariants.{Operation, BasicBlock, Region};
ghost use Rattle.rewriter.specs.Seen.{Does, told};

use crate::listener::RewriteListener;
use crate::rewriter::IRRewriter;
use calls::events::RecorderEvent;
use model::ids::{BlockId, IRNode, OpId, RegionId};
use model::refusal::Refusal;
use store::store::Store;

/// Tells `listener` that `nodes` are erased.
pub fn notify_erasures<L: RewriteListener>(listener: &mut L, nodes: &[IRNode])
    requires { fits L.keeps (L.log listener.old) (length nodes.now) ≡ true }
    ensures { L.log listener.new ≡ L.log listener.old ++ kept L.keeps (map erasing nodes.now) }
{
    for node in nodes {
        listener.notify(RecorderEvent::erased(*node));
    }
}

impl<L: RewriteListener> IRRewriter<L> {
    /// Erases `node` and all that lies in it.
    fn erase(&mut self, store: &mut Store, node: IRNode) -> Result<(), Refusal>
        ensures { Does L.keeps L.log store.old self.old (erase node) store.new self.new (told result) }
    {
        store.list_part(node, &mut self.part)?;
        if store.used_outside(&self.part) {
            return Err(Refusal::StillUsed);
        }
        self.room(self.part.len())?;
        notify_erasures(&mut self.listener, self.part.as_slice());
        store.erase_part(&self.part);
        Ok(())
    }

    /// Erases `op` and all that lies in it.
    pub fn erase_operation(&mut self, store: &mut Store, op: OpId) -> Result<(), Refusal>
        ensures { Does L.keeps L.log store.old self.old (erase (Operation op)) store.new self.new (told result) }
    {
        self.erase(store, op.into())
    }

    // Stays: three names for users, each one line over `erase`.
    /// Erases `block` and all that lies in it.
    pub fn erase_block(&mut self, store: &mut Store, block: BlockId) -> Result<(), Refusal>
        ensures { Does L.keeps L.log store.old self.old (erase (BasicBlock block)) store.new self.new (told result) }
    {
        self.erase(store, block.into())
    }

    /// Erases `region` and all that lies in it.
    pub fn erase_region(&mut self, store: &mut Store, region: RegionId) -> Result<(), Refusal>
        ensures { Does L.keeps L.log store.old self.old (erase (Region region)) store.new self.new (told result) }
    {
        self.erase(store, region.into())
    }
}
