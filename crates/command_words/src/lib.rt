//! The words of the command line, and the options that they stand for.
//!
//! `clap` reads the words as one simple command, whose options each take one value; the values are read here. What each
//! list of words stands for is defined in `specs/`, by what `clap` promises of such a command.
#![tactic(auto)]

mod numbers;
mod options;
mod values;
mod words;
mod worked;

pub use options::{DEFAULT_OPTIONS, Options, WordsFault};
pub use words::read_words;
pub use worked::worked_words;
