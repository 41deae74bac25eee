//! What a line says.
use rma_types::{Asserts, Bits, Dtype, Group, Items, Lock, Op};

/// All that a line can say. What a form has no place for stays as it is in a line that says nothing.
#[derive(Debug, Drop)]
pub struct Fields {
    /// The number of ranks.
    pub ranks: u8,
    /// The rank that has the space, and its bytes.
    pub owner: u8,
    pub room: u32,
    /// The ranks of a block.
    pub members: Items<u8>,
    /// How often a repeat stands.
    pub times: u32,
    /// The names of the request and of the window.
    pub req: u8,
    pub win: u8,
    /// An address, a number of bytes and a displacement unit.
    pub base: i32,
    pub bytes: i32,
    pub unit: i32,
    /// The kind of a lock.
    pub lock: Lock,
    /// The rank that a synchronisation is with.
    pub peer: i32,
    pub group: Group,
    pub asserts: Asserts,
    /// The target of a transfer, which is none for MPI_PROC_NULL.
    pub target: Option<i32>,
    pub disp: i32,
    pub dtype: Dtype,
    pub op: Op,
    pub count: i32,
    /// Bit patterns of the datatype.
    pub compare: u64,
    pub value: u64,
    pub values: Bits,
}
