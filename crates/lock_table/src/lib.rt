//! The locks that are held on one window (MPI 3.1, section 11.5.3).
//!
//! A table is of one window, by its number, and a window that is created anew has a table of its own: so a lock never
//! meets one of another window. No call takes memory.
#![tactic(auto)]

mod tables;
mod targets;

pub use tables::LockTable;
