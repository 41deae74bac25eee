//! A whole run of a script on one thread, rank by rank in turns (this project's profile of schedules and deliveries).
//!
//! [`run_steps`] gives exactly the run that the definitions build turn by turn, for every script, order, delay and
//! seed.
#![tactic(auto)]

mod ends;
mod generators;
mod rank_sets;
mod ranks;
mod runners;
mod schedules;
mod starts;
mod steps;

pub use steps::run_steps;
