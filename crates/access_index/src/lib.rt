//! Which accesses of a run reach a part of a rank's memory, by rank and by what they do: tables that grow with a run, and
//! know no order and no model of memory (after MPI 3.1, section 11.7).
#![tactic(auto)]

mod index;
mod lists;
mod regions;

pub use index::AccessIndex;
pub use regions::{Cast, Class, Group, Region, cast_of};
