//! Which runs are lawful: what MPI 3.1 and this project's profile of it ask of the logs and the memory of a run.
//! Definitions.
//!
//! They stand in `specs/`, one file a subject: items and logs, entries, accesses and touches, the histories of cells,
//! the board's part, the items of the calls, the touches of a log, and when they stand (MPI 3.1, sections 11.5 and
//! 11.7).
#![tactic(auto)]
