//! Types that come to those that a value had.
ghost use Rattle.std.specs.Prelude.{◌≡◌, ◌+◌, ◌<◌, ◌≤◌, length, nat_eq};
ghost use Rattle.row.specs.Items.{row_items};
ghost use Rattle.model.specs.Erasing.{less};
ghost use Rattle.rules.specs.Histories.{add_type, add_types};

use crate::history::MAX_TYPES;
use row::Row;
use std::convert::TryFrom;

/// So many types there may be before the limit is tested: what the one value had, what the other had, and one more.
pub const JOINED_TYPES: usize = 2 * MAX_TYPES + 1;

/// `types` without `ty`.
fn without(types: &[u32], ty: u32) -> Row<u32, JOINED_TYPES>
    requires { length types.now ≤ 33 }
    ensures { row_items result ≡ less (nat_eq ty) types.now }
{
    let mut others = Row::try_from(types).unwrap();
    others.retain(|other| *other != ty);
    others
}

/// `types` and then `ty`, which does not stay where it was.
pub fn add_type(types: &[u32], ty: u32) -> Row<u32, JOINED_TYPES>
    requires { length types.now < 33 }
    ensures items { row_items result ≡ add_type types.now ty }
    ensures count { length (row_items result) ≤ length types.now + 1 }
{
    let mut all = without(types, ty);
    all.push(ty);
    all
}

/// `types`, and then each of `more` in turn.
pub fn add_types(types: Row<u32, JOINED_TYPES>, more: &[u32]) -> Row<u32, JOINED_TYPES>
    requires { length (row_items types) + length more.now ≤ 33 }
    ensures { row_items result ≡ add_types (row_items types) more.now }
{
    let mut all = types;
    for ty in more {
        all = add_type(all.as_slice(), *ty);
    }
    all
}
