//! The rules that forbid two accesses which are not ordered: after MPI 3.1, section 11.7, rules S1 to S3, in this
//! project's profile.
#![tactic(auto)]

mod numbers;
mod pairs;

pub use numbers::{WindowNumbers, numbers_follow};
pub use pairs::{Part, forbidden_kind, part_of};
