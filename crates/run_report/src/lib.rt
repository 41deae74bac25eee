//! The report on a run, and the status with which the program ends.
//!
//! `report_text` writes exactly the text that `Report` of `run_texts` defines, and `status_of` answers exactly its
//! `Status`, of any run.
#![tactic(auto)]

mod calls;
mod chains;
mod counts;
mod fetches;
mod findings;
mod memory;
mod numbers;
mod reports;
mod runs;
mod standings;

pub use reports::report_text;
pub use runs::status_of;
