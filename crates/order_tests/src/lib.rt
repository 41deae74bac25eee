//! Whole runs of scripts, for tests of their order, of the points of their accesses, and of their judgement.
#![tactic(auto)]

#[cfg(test)]
mod judgements;
#[cfg(test)]
mod orders;
mod plays;
#[cfg(test)]
mod points;
#[cfg(test)]
mod scripts;

pub use plays::played;
