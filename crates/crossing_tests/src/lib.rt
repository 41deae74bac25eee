//! What a run on several threads hands to a thread, and what its threads share: that each may go there is proved.
#![tactic(auto)]

mod crossings;

pub use crossings::{Sent, Shared, cross, join_at, join_over, join_with};
