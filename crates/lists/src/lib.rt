// General definitions and laws, in specs/ and proofs/. This crate has no code of its own.
#![tactic(auto)]
