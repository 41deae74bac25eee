//! What the updates of a lawful run left in its cells: after MPI 3.1, section 11.7, in this project's profile.
//!
//! `state_at` folds the updates of a cell in the order of their places, and `ordered_read` those that are before a get
//! or a load.
#![tactic(auto)]

mod changes;
mod reads;
mod states;
mod touches;

pub use reads::ordered_read;
pub use states::state_at;
