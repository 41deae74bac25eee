//! Cells of memory that several ranks share, each a word that changes in single atomic steps.
//!
//! A word has the cell's bits in its high half and its number of updates in its low half. Nothing here waits.
#![tactic(auto)]

mod cells;
mod notes;
mod seats;
mod shared_steps;
mod steps;
mod views;
mod words;

pub use cells::{CellPass, Cells};
pub use notes::CellNote;
pub use seats::CellSeat;
