// A number in bytes, decimal: read from a line, spelt into a buffer.
#![tactic(auto)]

pub mod reading;
pub mod spelling;
