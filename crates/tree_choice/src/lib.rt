// Free choices of the tree, made well: which child a cell enters, and how the entries of a full node are parted. No answer depends on them.
#![tactic(auto)]

pub mod area;
pub mod child;
pub mod parting;
