//! The accesses of a run, each with points at which it is done and visible: MPI 3.1, sections 11.3.5, 11.4, 11.5 and
//! 11.7, in this project's profile.
//!
//! Of the points in one log the first is enough, since whatever comes after it is before the later ones. So each access
//! has a few points, which stand for all. They are found by searches among the steps that `rank_records` keeps.
#![tactic(auto)]

mod accesses;
mod calls;
mod keys;
mod points;
mod run_points;
mod searches;
mod step_searches;
mod step_tables;

pub use accesses::{JudgedPoints, do_reach, points_towards};
pub use run_points::judged_points;
pub use searches::{Sought, ends_request, first_after, is_sought};
