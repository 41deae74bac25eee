//! The findings, points and ordered reads of small runs, as theorems over the definitions of the order.
//!
//! Each function does nothing: its clauses are the theorems, whose statements stand in `specs/`. Most scripts are
//! those of `run_examples`, to whose reports findings are given: here they are computed. Whether one item of a run is
//! before another is computed by vector clocks.
#![tactic(auto)]

mod deliveries;
mod exchanges;
mod locks;
mod points;
mod posts;
mod requests;

pub use deliveries::findings_of_late_touches;
pub use exchanges::order_of_an_exchange;
pub use locks::{
    findings_in_a_lock, findings_of_accumulates, findings_of_loads_and_stores,
    findings_of_two_locks, points_of_a_flushed_put,
};
pub use points::{done_points_of_each_kind, visible_points_of_each_kind};
pub use posts::{findings_of_a_post, findings_of_two_rounds};
pub use requests::findings_of_requests;
