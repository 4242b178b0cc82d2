//! Walks over the tables of a store.

#![tactic(auto)]

pub mod nodes;
pub mod parts;
pub mod walkers;

pub use nodes::Nodes;
