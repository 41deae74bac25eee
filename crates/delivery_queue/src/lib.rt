//! The accesses of a rank that are issued and not yet wholly touched, in the order of their Issues, and its live
//! requests (MPI 3.1, sections 11.3.5 and 11.7).
#![tactic(auto)]

mod begun;
mod blocks;
mod deliveries;
mod groups;
mod marks;
mod number_sets;
mod parts;
mod queue;
mod searches;
mod sought;
mod spans;
mod waits;
mod walks;
mod ways;

pub use queue::{Delivery, Pending};
