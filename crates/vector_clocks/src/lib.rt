//! Vector clocks of the entries of a run: MPI 3.1, section 11.7, in this project's profile of order.
#![tactic(auto)]

mod clocks;
mod marks;
mod places;
mod replays;

pub use clocks::{clocks_by, clocks_of};
pub use marks::{Clocks, Mark};
pub use places::{Placed, call_at, entries_by_place};
