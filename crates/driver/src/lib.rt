//! The driver, as far as it stands: what it keeps and counts. There is no step yet.
#![tactic(auto)]

pub mod driver;

pub use driver::Driver;
