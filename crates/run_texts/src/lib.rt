//! The text of the report on a run, and the exit status: definitions, with the modes of the program that they speak of.
//!
//! The definitions stand in `specs/`, one file a subject: what a log says of its calls, the lines of a report, and the
//! status.
#![tactic(auto)]

mod modes;

pub use modes::Mode;
