//! The states of operations, and what is due.
#![tactic(auto)]

pub mod due;
pub mod states;

pub use states::States;
