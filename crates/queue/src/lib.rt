//! A double-ended queue over memory that is lent at each call: it keeps only where the elements lie.

#![tactic(auto)]

mod queue;

pub use queue::{Full, Queue};
