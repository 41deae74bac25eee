//! The run of a script on one thread: this project's profile. Definitions.
//!
//! They stand in `specs/`, one file a subject: the generator of draws, a rank between two steps, its steps at the board
//! and on memory, the order in which the ranks take turns, and the run.
#![tactic(auto)]
