//! Putting a history in its place, and letting histories go.
ghost use Rattle.std.specs.Prelude.{◌≡◌, ◌≤◌};
ghost use Rattle.row.specs.Items.{row_items};
ghost use Rattle.rules.specs.Histories.{put_types, drop_types, live_only};
ghost use Rattle.store.specs.Meaning.{meaning};
ghost use Rattle.histories.specs.Kept.{size_with, is_kept};
ghost use Rattle.histories.specs.Many.{kept};

use super::Histories;
use crate::history::{MAX_TYPES, TypeHistory};
use crate::lookups::{find, place_of};
use model::ids::Value;
use row::Row;
use store::store::Store;

impl Histories {
    /// Lets the histories of values go that are not live.
    pub fn forget_dead(&mut self, store: &Store)
        ensures { kept self.new ≡ live_only (meaning store.now) (kept self.old) }
    {
        self.entries.retain(|entry| store.are_live(&[entry.value]));
    }

    /// Lets the history of `value` go.
    pub(super) fn drop_types(&mut self, value: Value)
        ensures { kept self.new ≡ drop_types (kept self.old) value }
    {
        self.entries.retain(|entry| entry.value != value);
    }

    /// Does `value` have a history?
    pub(super) fn is_kept(&self, value: Value) -> bool
        ensures { result ≡ is_kept (kept self.now) value }
    {
        find(self.entries.as_slice(), value).is_some()
    }

    /// How many histories there are once `value` has one.
    pub(super) fn size_with(&self, value: Value) -> usize
        ensures { result ≡ size_with (kept self.now) value }
    {
        if self.is_kept(value) {
            self.entries.len()
        } else {
            self.entries.len() + 1
        }
    }

    /// `value` had just these types.
    pub(super) fn put_types(&mut self, value: Value, types: Row<u32, MAX_TYPES>)
        requires { size_with (kept self.old) value ≤ 1024 }
        ensures { kept self.new ≡ put_types (kept self.old) value (row_items types) }
    {
        let entry = TypeHistory { value, types };
        // Stays: the place, since it is written there.
        match place_of(self.entries.as_slice(), value) {
            Some(place) => self.entries[place] = entry,
            None => self.entries.push_reserved(entry),
        }
    }
}
