//! What each call of a script is, and what it does to memory: definitions, with the plain structs that they speak of.
//!
//! The definitions stand in `specs/`, one file a subject: the table of all calls, the elements of a transfer and what
//! becomes of them (MPI 3.1, sections 3.2.2, 5.9.2 and 11.3), the memory that a script asks for, and which scripts a
//! text can say.
#![tactic(auto)]

mod cells;
mod elements;

pub use cells::Cell;
pub use elements::{Change, Piece, patterns};
