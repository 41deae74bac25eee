//! What the board answers an entry after the entries before it, and what each entry comes after: definitions.
//!
//! They stand in `specs/`, one file a subject: the entries and their windows, rounds of collective calls, posts and
//! starts, locks, attached ranges, the board's answer, the shapes of windows, and the edges from one entry to a later
//! one (MPI 3.1, sections 11.2, 11.5 and 11.7).
#![tactic(auto)]
