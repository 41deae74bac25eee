//! Small scripts with the reports of their runs, as theorems over the definitions of a run, and laws of the
//! definitions.
//!
//! Each function does nothing: its clauses are the theorems, whose statements stand in `specs/`. A theorem on a script
//! is about the run of that script alone. The findings of a report are given to it: nothing here says which pairs are
//! forbidden.
#![tactic(auto)]

mod cells;
mod deliveries;
mod elements;
mod epochs;
mod exchanges;
mod fences;
mod locks;
mod posts;
mod regions;
mod standing;

pub use cells::updates_of_a_cell;
pub use deliveries::{late_touches, touches_of_completed_accesses, touches_that_are_due};
pub use elements::operations_on_elements;
pub use epochs::{names_and_requests, refusals};
pub use exchanges::exchange_on_a_ring;
pub use fences::puts_between_fences;
pub use locks::{accesses_in_a_lock, accumulates_of_two_ranks, loads_and_stores};
pub use posts::{posts_and_locks, testwin_in_each_order};
pub use regions::attached_regions;
pub use standing::{flavors_of_one_window, ranks_that_wait};
