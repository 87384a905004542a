// Laws of whole numbers and of lists stand in specs/: the crate has no code.
#![tactic(auto)]
