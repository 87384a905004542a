#![tactic(auto)]

// Tables that differ in their trees alone answer every call alike: laws in proofs/, and no code.
