//! Orders as text, one operation a line; and what the programs share.

#![tactic(auto)]

pub mod call_error;
pub mod line;
pub mod load;
pub mod reason;
pub mod types;
