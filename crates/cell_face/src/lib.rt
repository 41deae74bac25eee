//! Cells of memory, and what an update does to one: the operations on an element, and the memory that accesses touch.
//!
//! `next_bits` is the whole table of datatypes and operations (MPI 3.1, sections 5.9.2 and 11.3.4). `Memory` says what
//! a memory of cells gives to whoever touches it, whether one thread owns the cells or several ranks share them;
//! `PlainMemory` is the one that one thread owns.
#![tactic(auto)]

mod elements;
mod fronts;
mod memories;
mod plain;
mod tokens;

pub use call_rules::{Cell as Seen, Change};
pub use elements::{element_in, next_bits};
pub use fronts::Front;
pub use memories::{Memory, Moved};
pub use plain::PlainMemory;
pub use tokens::{NoNote, Token};
