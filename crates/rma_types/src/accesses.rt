//! The accesses of a run, and the names of its items.
use crate::dtypes::Dtype;
use crate::ops::Op;

/// The kind of an access. An accumulate of any form is an `Acc`.
#[derive(Clone, Copy, Debug, PartialEq, Eq)]
pub enum Kind {
    Get,
    Put,
    Acc { op: Op, dtype: Dtype },
    Cas { dtype: Dtype },
    Load,
    Store,
}

/// One access: the bytes from `lo` to `lo + len` of the memory of rank `target`, reached through a window.
#[derive(Clone, Copy, Debug, PartialEq, Eq)]
pub struct Access {
    /// The window's number: 32 times the round of its creation, plus its name.
    pub window: u32,
    pub target: u8,
    /// The address of the first byte. Where there is a byte, it is below 65,536.
    pub lo: u32,
    /// The number of bytes, at most 1,024.
    pub len: u32,
    pub kind: Kind,
}

/// The name of an item of a run: its rank, and its index in that rank's log. Ids are ordered by rank, then
/// by index.
#[derive(Clone, Copy, Debug, PartialEq, Eq, PartialOrd, Ord)]
pub struct Id {
    pub rank: u8,
    pub index: u32,
}

/// Which step of a call an entry of the board is: the two steps of a collective, or the one of any other call.
#[derive(Clone, Copy, Debug, PartialEq, Eq)]
pub enum Step {
    Arrive,
    Leave,
    One,
}
