//! Identities, values, points, limits and refusals; what a store means, and the laws of it, are in specs/ and proofs/.

#![tactic(auto)]

pub mod ids;
pub mod limits;
pub mod points;
pub mod refusal;
pub mod same;
