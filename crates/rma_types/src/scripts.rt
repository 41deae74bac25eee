//! Scripts, and the memory that they ask for.
use crate::calls::Call;
use crate::items::Items;
use std::alloc::AllocError;

/// The answer for want of memory.
#[derive(Clone, Copy, Debug, PartialEq, Eq)]
pub struct NoMemory;

impl From<AllocError> for NoMemory {
    fn from(_: AllocError) -> NoMemory {
        NoMemory
    }
}

/// A rank's part of a window: where it begins in the rank's memory, its bytes and its displacement unit
/// (MPI 3.1, section 11.2).
#[derive(Clone, Copy, Debug, Default, PartialEq, Eq)]
pub struct Part {
    pub base: u32,
    pub bytes: u32,
    pub unit: u32,
}

/// A rank's memory: its first cell, of 4 bytes, and its bytes, a multiple of 8.
#[derive(Clone, Copy, Debug, PartialEq, Eq)]
pub struct MemoryPart {
    pub first_cell: u32,
    pub bytes: u32,
}

/// The address that the memory of one `allocate` begins at, with the number of that call.
#[derive(Clone, Copy, Debug, PartialEq, Eq)]
pub struct CallBase {
    pub call: u32,
    pub base: u32,
}

/// Where the memory of a script's ranks lies: one part for each rank, and for each rank the addresses of the
/// memory of its `allocate` calls, by ascending call number.
#[derive(Debug, Drop)]
pub struct Layout {
    pub parts: Items<MemoryPart>,
    pub bases: Items<Items<CallBase>>,
}

/// A script: the number of ranks, from 1 to 16, and for each rank its bytes of space and its list of calls.
#[derive(Debug, PartialEq, Drop)]
pub struct Script {
    pub ranks: u8,
    pub spaces: Items<u32>,
    pub calls: Items<Items<Call>>,
}
