//! The histories of many values, in memory that is taken when they are made.
ghost use Rattle.std.specs.Prelude.{◌≤◌, length, vec_capacity};

use crate::history::TypeHistory;

mod changes;
mod reads;
mod records;

#[derive(Drop)]
pub struct Histories {
    // Stays: searched, and no map, since after `new` nothing allocates; no `Bounded`, since elements are also replaced in place and dropped by a test.
    entries: Vec<TypeHistory>,
    ghost within: { length entries.items ≤ 1024 },
    ghost reserved: { 1024 ≤ vec_capacity entries },
}
