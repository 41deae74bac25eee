//! The order of a run, and which pairs of accesses it leaves forbidden: definitions.
//!
//! They stand in `specs/`, one file a subject: the order as a closure, the steps of calls and the accesses of a run,
//! where an access is done and where it is visible, which of two accesses is ordered before the other, the rules that
//! forbid a pair, the findings, and what ordered reads give (MPI 3.1, section 11.7, in this project's profile).
#![tactic(auto)]
