//! The calls of a script.
ghost use Rattle.std.specs.Prelude.{◌≡◌};
ghost use Rattle.rma_types.specs.CallWords.{word_of};

use crate::dtypes::Dtype;
use crate::items::{Bits, Group};
use crate::ops::Op;

/// The kind of a lock (MPI 3.1, section 11.5.3).
#[derive(Clone, Copy, Debug, PartialEq, Eq)]
pub enum Lock {
    Shared,
    Exclusive,
}

/// How a window was created (MPI 3.1, section 11.2).
#[derive(Clone, Copy, Debug, PartialEq, Eq)]
pub enum Flavor {
    Allocate,
    Create,
    Dynamic,
}

/// The assertions of a synchronisation call (MPI 3.1, section 11.5.5).
#[derive(Clone, Copy, Debug, PartialEq, Eq)]
pub struct Asserts {
    pub nocheck: bool,
    pub nostore: bool,
    pub noput: bool,
    pub noprecede: bool,
    pub nosucceed: bool,
}

/// One call of a script, with its numbers as the script has them.
///
/// `win` is a window name from 0 to 31 and `req` a request name from 0 to 63. A `target` of `None` is
/// MPI_PROC_NULL. Bytes, units, displacements, counts and ranks may be out of range: the call is then refused.
#[derive(Debug, PartialEq, Drop)]
pub enum Call {
    Allocate {
        win: u8,
        bytes: i32,
        unit: i32,
    },
    Create {
        win: u8,
        base: i32,
        bytes: i32,
        unit: i32,
    },
    Dynamic {
        win: u8,
    },
    Free {
        win: u8,
    },
    Attach {
        win: u8,
        base: i32,
        bytes: i32,
    },
    Detach {
        win: u8,
        base: i32,
    },
    Fence {
        win: u8,
        asserts: Asserts,
    },
    Post {
        win: u8,
        group: Group,
        asserts: Asserts,
    },
    Start {
        win: u8,
        group: Group,
        asserts: Asserts,
    },
    Complete {
        win: u8,
    },
    WaitWin {
        win: u8,
    },
    TestWin {
        win: u8,
    },
    LockOne {
        win: u8,
        kind: Lock,
        target: i32,
        asserts: Asserts,
    },
    Unlock {
        win: u8,
        target: i32,
    },
    LockAll {
        win: u8,
        asserts: Asserts,
    },
    UnlockAll {
        win: u8,
    },
    Flush {
        win: u8,
        target: i32,
    },
    FlushAll {
        win: u8,
    },
    FlushLocal {
        win: u8,
        target: i32,
    },
    FlushLocalAll {
        win: u8,
    },
    Sync {
        win: u8,
    },
    Barrier,
    Put {
        req: Option<u8>,
        win: u8,
        target: Option<i32>,
        disp: i32,
        dtype: Dtype,
        values: Bits,
    },
    Get {
        req: Option<u8>,
        win: u8,
        target: Option<i32>,
        disp: i32,
        dtype: Dtype,
        count: i32,
    },
    Acc {
        req: Option<u8>,
        win: u8,
        target: Option<i32>,
        disp: i32,
        dtype: Dtype,
        op: Op,
        values: Bits,
    },
    GetAcc {
        req: Option<u8>,
        win: u8,
        target: Option<i32>,
        disp: i32,
        dtype: Dtype,
        op: Op,
        values: Bits,
    },
    Fop {
        win: u8,
        target: Option<i32>,
        disp: i32,
        dtype: Dtype,
        op: Op,
        value: u64,
    },
    Cas {
        win: u8,
        target: Option<i32>,
        disp: i32,
        dtype: Dtype,
        compare: u64,
        new: u64,
    },
    Load {
        win: u8,
        disp: i32,
        dtype: Dtype,
        count: i32,
    },
    Store {
        win: u8,
        disp: i32,
        dtype: Dtype,
        values: Bits,
    },
    WaitReq {
        req: u8,
    },
    TestReq {
        req: u8,
    },
}

impl Call {
    /// The word that begins the call's line in a script.
    pub fn word(&self) -> &'static str
        ensures { result.now ≡ word_of self.now }
    {
        match self {
            Call::Allocate { .. } => "allocate",
            Call::Create { .. } => "create",
            Call::Dynamic { .. } => "dynamic",
            Call::Free { .. } => "free",
            Call::Attach { .. } => "attach",
            Call::Detach { .. } => "detach",
            Call::Fence { .. } => "fence",
            Call::Post { .. } => "post",
            Call::Start { .. } => "start",
            Call::Complete { .. } => "complete",
            Call::WaitWin { .. } => "wait",
            Call::TestWin { .. } => "testwin",
            Call::LockOne { .. } => "lock",
            Call::Unlock { .. } => "unlock",
            Call::LockAll { .. } => "lock_all",
            Call::UnlockAll { .. } => "unlock_all",
            Call::Flush { .. } => "flush",
            Call::FlushAll { .. } => "flush_all",
            Call::FlushLocal { .. } => "flush_local",
            Call::FlushLocalAll { .. } => "flush_local_all",
            Call::Sync { .. } => "sync",
            Call::Barrier => "barrier",
            Call::Put { req: None, .. } => "put",
            Call::Put { req: Some(_), .. } => "rput",
            Call::Get { req: None, .. } => "get",
            Call::Get { req: Some(_), .. } => "rget",
            Call::Acc { req: None, .. } => "acc",
            Call::Acc { req: Some(_), .. } => "racc",
            Call::GetAcc { req: None, .. } => "getacc",
            Call::GetAcc { req: Some(_), .. } => "rgetacc",
            Call::Fop { .. } => "fop",
            Call::Cas { .. } => "cas",
            Call::Load { .. } => "load",
            Call::Store { .. } => "store",
            Call::WaitReq { .. } => "waitreq",
            Call::TestReq { .. } => "testreq",
        }
    }
}
