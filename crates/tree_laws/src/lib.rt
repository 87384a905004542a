#![tactic(auto)]

// The laws of a changing tree, over what entries each node has: they name no words, and the crate has no code.
