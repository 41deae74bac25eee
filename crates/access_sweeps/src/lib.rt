//! Two lists of accesses are swept: for each access of the second, the least of the first that is ordered neither before
//! nor after it, and that may not stand beside it (after MPI 3.1, section 11.7).
#![tactic(auto)]

mod fronts;
mod kinds;
mod order;
mod sweeps;

pub use kinds::{Label, do_stand, label_of};
pub use sweeps::{Sweep, sweep_lists};
