//! Nodes go out of the tables of a store, and what the others still use of them.

#![tactic(auto)]

pub mod erase;
pub mod uses;
