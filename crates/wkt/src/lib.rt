// A cell's track as a line of well-known text: written, and read back.
#![tactic(auto)]

pub mod line;
pub mod point;
pub mod reading;
