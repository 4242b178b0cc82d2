//! A bounded list whose memory is taken when it is made.

#![tactic(auto)]

mod bounded;

pub use bounded::Bounded;
