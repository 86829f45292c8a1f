// Demand 3 over whole lists of calls: the claims in specs/, their proofs in proofs/. This crate has no code of its own.
#![tactic(auto)]
