//! Where operations and blocks lie.
ghost use Rattle.std.specs.Prelude.{◌≡◌, ℕ, ◌+◌, ◌<◌, ◌≤◌, true, is_some, None};
ghost use Rattle.lists.specs.Lists.{home};
ghost use Rattle.model.specs.Model.{above, inside};
ghost use Rattle.model.specs.Calls.{unlink_at};
ghost use Rattle.tables.specs.View.{view, sizes};

use crate::tables::Tables;

impl Tables {
    /// The slot of the operation right above the block in `slot`.
    pub fn owner_above(&self, slot: usize) -> Option<usize>
        ensures { result ≡ above (view self.now) slot }
    {
        let region = self.block_lists.get_container(slot)?;
        Some(self.regions.peek(region)?.owner.slot)
    }

    /// Does the block in the slot `block` lie inside the operation in the slot `op`?
    pub fn lies_inside(&self, op: usize, block: usize) -> bool
        ensures { result ≡ inside (view self.now) op block }
    {
        let mut at = block;
        // Stays: no index; a climb ends after as many steps as there are operations.
        for _ in 0..self.operations.len() {
            let Some(owner) = self.owner_above(at) else {
                return false;
            };
            if owner == op {
                return true;
            }
            let Some(home) = self.op_lists.get_container(owner) else {
                return false;
            };
            at = home;
        }
        false
    }

    /// Takes the operation in the slot `op` out of its block.
    pub fn unlink(&mut self, op: usize)
        requires { is_some (home self.old.op_lists op) ≡ true }
        ensures after { view self.new ≡ unlink_at (view self.old) op (home self.old.op_lists op) }
        ensures sizes { sizes self.new ≡ sizes self.old }
    {
        self.op_lists.unlink(op);
    }
}
