// Reports and drops, and how the tree of a table is changed by them.
#![tactic(auto)]

pub mod change;
pub mod clear;
pub mod count;
pub mod root;
