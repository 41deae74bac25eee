//! Where one access is done, and where it is visible: MPI 3.1, sections 11.3.5, 11.4, 11.5 and 11.7, in this project's
//! profile.
//!
//! Both lists are exactly those of the definitions. They are made for one access by itself; the judgement of a run goes
//! by fewer points (`conflict_check`).
#![tactic(auto)]

mod edges;
mod kept;
mod points;
mod tests_of_steps;

pub use edges::led_from;
pub use points::{done_points, visible_points};
