//! The states of operations.
ghost use Rattle.std.specs.Prelude.{◌≡◌, length};

use rules_next::interface::StateEntry;

pub mod noting;

/// Each of the 512 slots keeps the state of one operation.
#[derive(Drop)]
pub struct States {
    entries: Vec<StateEntry>,
    ghost sized: { length entries.items ≡ 512 },
}
