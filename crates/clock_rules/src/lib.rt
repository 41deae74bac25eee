//! Vector clocks, whose numbers decide the order of a run: definitions.
//!
//! They stand in `specs/`: how many items of each log are before an entry, and the test of two names by these numbers
//! (MPI 3.1, section 11.7). No definition of the order itself goes by them.
#![tactic(auto)]
