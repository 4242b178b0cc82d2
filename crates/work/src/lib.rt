//! The driver's worklist and pending blocks, and how it handles a batch of records.
#![tactic(auto)]

pub mod work;

pub use work::Work;
