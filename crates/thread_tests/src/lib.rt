//! Tests of what several threads do over one table of cells: what holds whatever the schedule.
#![tactic(auto)]

#[cfg(test)]
mod many;
#[cfg(test)]
mod rows;
#[cfg(test)]
mod sums;
#[cfg(test)]
mod touches;
