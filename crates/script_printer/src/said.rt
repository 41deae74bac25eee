//! What a line says, as it is printed.
use rma_types::{Asserts, Dtype, Lock, Op};

/// All that a printed line can say. Its lists are those of the script.
#[derive(Clone, Copy, Debug)]
pub(crate) struct Said<'a> {
    /// The number of ranks.
    pub ranks: u8,
    /// The rank that has the space, and its bytes.
    pub owner: usize,
    pub room: u32,
    /// The rank of a block.
    pub member: Option<usize>,
    /// The names of the request and of the window.
    pub req: u8,
    pub win: u8,
    /// An address, a number of bytes and a displacement unit.
    pub base: i32,
    pub bytes: i32,
    pub unit: i32,
    /// The kind of a lock.
    pub lock: Lock,
    /// The rank that a synchronisation is with.
    pub peer: i32,
    pub group: &'a [i32],
    pub asserts: Asserts,
    /// The target of a transfer, which is none for MPI_PROC_NULL.
    pub target: Option<i32>,
    pub disp: i32,
    pub dtype: Dtype,
    pub op: Op,
    pub count: i32,
    /// Bit patterns of the datatype.
    pub compare: u64,
    pub value: u64,
    pub values: &'a [u64],
}

/// No assertions.
pub(crate) const NO_ASSERTS: Asserts = Asserts {
    nocheck: false,
    nostore: false,
    noput: false,
    noprecede: false,
    nosucceed: false,
};

/// A line that says nothing.
pub(crate) const NOTHING: Said<'static> = Said {
    ranks: 0,
    owner: 0,
    room: 0,
    member: None,
    req: 0,
    win: 0,
    base: 0,
    bytes: 0,
    unit: 0,
    lock: Lock::Shared,
    peer: 0,
    group: &[],
    asserts: NO_ASSERTS,
    target: None,
    disp: 0,
    dtype: Dtype::Int8,
    op: Op::Replace,
    count: 0,
    compare: 0,
    value: 0,
    values: &[],
};
