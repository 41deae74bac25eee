//! A turn round a list of marks, on one thread and on many.
#![tactic(auto)]

pub mod marks;
pub mod playing;
#[cfg(test)]
mod rounds;
