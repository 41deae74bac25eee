//! A cell of memory.

/// A cell, of 4 bytes: its value, and how many updates it has had.
#[derive(Clone, Copy, Debug, PartialEq, Eq)]
pub struct Cell {
    pub bits: u32,
    pub place: u32,
}
