//! Laws of lists and numbers, for the proofs of other crates.
#![tactic(auto)]
