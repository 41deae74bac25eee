//! The record of a run: the items of each rank's log, and the run that they make.
#![tactic(auto)]

mod items;
mod keeps;
mod logs;
mod runs;

pub use items::Item;
pub use keeps::Keep;
pub use logs::Log;
pub use runs::{Logs, Run};
