//! What a conversion is asked, and what it is told of the operands.
#![tactic(auto)]

pub mod dialect_conversion;
pub mod operands_info;

pub use dialect_conversion::DialectConversion;
pub use operands_info::OperandsInfo;
