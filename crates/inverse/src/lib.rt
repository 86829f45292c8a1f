// Reading and writing a line are inverse (paper 02, M-104): the claims stand in the model's specs/Rewritten, their proofs here. This
// crate has no code of its own.
#![tactic(auto)]
