//! What a value must be for a turn to go round it: it has a list of entries, each with an owner, and an origin.
#![tactic(auto)]

mod listed;

pub use listed::Listed;
