#![tactic(auto)]

//! An inline bounded list of Copy elements.
mod row;

pub use row::{Row, TooLong};
