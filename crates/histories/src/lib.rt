//! The types that values had.
#![tactic(auto)]

pub mod histories;
pub mod history;
mod joining;
pub mod lookups;

pub use histories::Histories;
pub use history::{HistoryFull, MAX_HISTORIES, MAX_TYPES, TypeHistory};
