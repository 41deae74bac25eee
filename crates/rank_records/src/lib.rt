//! The steps and the accesses of a run, each with what its rank knew of it (MPI 3.1, sections 11.2, 11.3.5 and 11.5).
#![tactic(auto)]

mod deeds;
mod kept;
mod logs;
mod records;
mod replays;
mod tables;

pub use kept::{EpochKind, KeptAccess, KeptStep, RankRecord, RunRecord};
pub use logs::{calls_at, log_at};
pub use replays::records_of;
