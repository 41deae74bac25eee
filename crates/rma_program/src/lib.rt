//! The program over any source and any sink: from the words of the command line to the exit status.
#![tactic(auto)]

mod inputs;
mod outcomes;
mod outputs;
mod tops;
mod words;

pub use outcomes::Outcome;
pub use tops::{rma_main, step_main};
pub use words::{NoWords, end_without_words, words_of};
