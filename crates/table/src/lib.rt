// A table of words: what is sound, and a fresh one.
#![tactic(auto)]

pub mod fresh;
pub mod header;
pub mod nodes;
pub mod scan;
pub mod sound;
