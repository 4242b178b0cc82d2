//! What the calls of a rewriter mean, one by one and in a list.

#![tactic(auto)]

pub mod events;

pub use events::RecorderEvent;
