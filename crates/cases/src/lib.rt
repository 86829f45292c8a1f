// What the definitions give for concrete tables and calls, computed: the claims in specs/, their proofs in proofs/. This crate has
// no code of its own.
#![tactic(auto)]
