//! Tables of slots that are used again under new generations.

#![tactic(auto)]

pub mod table;

pub use table::{Slot, Table};
