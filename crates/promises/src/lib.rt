#![tactic(auto)]

// What the contracts of the calls promise together, over whole runs of calls: theorems in specs/ and proofs/, and no code.
