//! Lists of nodes in containers.
ghost use Rattle.lists.specs.Walk.{Sound};

use crate::raw::Raw;

#[derive(Drop)]
pub struct LinkedLists {
    raw: Raw,
    ghost sound: { ∥ Sound raw.links.items raw.ends.items ∥₁ },
}

pub mod edits;
pub mod makes;
