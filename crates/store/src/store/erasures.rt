//! Erasing a node with all that lies in it.
ghost use Rattle.std.specs.Prelude.{◌≡◌, false, Some, None, MatchResult};
ghost use Rattle.model.specs.Calls.{replace_each};
ghost use Rattle.model.specs.Erasing.{is_node, part_of, PartListed, listed_part, Closed, used_outside, erased, erase_refusal};
ghost use Rattle.model.specs.declared.refusal.Refusal.TheVariants.{NotLive};
ghost use Rattle.walkers.specs.Listed.{nodes_in};
ghost use Rattle.store.specs.Meaning.{meaning};

use crate::store::Store;
use erasing::erase::erase_nodes;
use erasing::uses;
use model::ids::{IRNode, Value};
use model::refusal::Refusal;
use walkers::{Nodes, parts};

impl Store {
    /// Lists `node` and all that lies in it, in the order in which they are erased; `part` holds just these nodes afterwards.
    pub fn list_part(&self, node: IRNode, part: &mut Nodes) -> Result<(), Refusal>
        ensures { MatchResult result (λ _. PartListed (meaning self.now) node (nodes_in part.new)) (λ e. (is_node (meaning self.now) node ≡ false) × (e ≡ NotLive) × (nodes_in part.new ≡ nodes_in part.old)) }
    {
        if !self.is_live(node) {
            return Err(Refusal::NotLive);
        }
        part.clear();
        parts::list_part(&self.tables, node, part);
        Ok(())
    }

    /// Does an operation outside `part` use a value that is defined in it?
    pub fn used_outside(&self, part: &Nodes) -> bool
        ensures { result ≡ used_outside (meaning self.now) (nodes_in part.now) }
    {
        uses::used_outside(&self.tables, part.as_slice())
    }

    /// When each of `olds`, in order, has given way to the one of `news` in the same place: does an operation outside `part` use a value that is defined in it?
    pub fn used_after(&self, part: &Nodes, olds: &[Value], news: &[Value]) -> bool
        ensures { result ≡ used_outside (replace_each (meaning self.now) olds.now news.now) (nodes_in part.now) }
    {
        uses::used_after(&self.tables, part.as_slice(), olds, news)
    }

    /// Erases the nodes of `part`, with which all that lies in them goes, and of which nothing else uses a value.
    pub fn erase_part(&mut self, part: &Nodes)
        requires closed { Closed (meaning self.old) (nodes_in part.now) }
        requires unused { used_outside (meaning self.old) (nodes_in part.now) ≡ false }
        ensures { meaning self.new ≡ erased (meaning self.old) (nodes_in part.now) }
    {
        erase_nodes(&mut self.tables, part.as_slice());
    }

    /// Erases `node` and all that lies in it. Afterwards `part` holds what was erased or, where a value of it is still used, what would have been; where `node` is not live it is left as it was.
    pub fn erase(&mut self, node: IRNode, part: &mut Nodes) -> Result<(), Refusal>
        ensures answer { MatchResult result (λ _. (erase_refusal (meaning self.old) node ≡ None) × (meaning self.new ≡ erased (meaning self.old) (part_of (meaning self.old) node))) (λ e. (erase_refusal (meaning self.old) node ≡ Some e) × (meaning self.new ≡ meaning self.old)) }
        ensures part { nodes_in part.new ≡ listed_part (meaning self.old) node (nodes_in part.old) }
    {
        self.list_part(node, part)?;
        if self.used_outside(part) {
            return Err(Refusal::StillUsed);
        }
        self.erase_part(part);
        Ok(())
    }
}
