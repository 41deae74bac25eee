//! The forms of a line.

/// The form of a call's line. Four calls have a second form, which makes a request.
#[derive(Clone, Copy, Debug, PartialEq, Eq)]
pub enum CallForm {
    Allocate,
    Create,
    Dynamic,
    Free,
    Attach,
    Detach,
    Fence,
    Post,
    Start,
    Complete,
    WaitWin,
    TestWin,
    LockOne,
    Unlock,
    LockAll,
    UnlockAll,
    Flush,
    FlushAll,
    FlushLocal,
    FlushLocalAll,
    Sync,
    Barrier,
    Put,
    RequestPut,
    Get,
    RequestGet,
    Acc,
    RequestAcc,
    GetAcc,
    RequestGetAcc,
    Fop,
    Cas,
    Load,
    Store,
    WaitReq,
    TestReq,
}

/// The form of a line: a directive, or a call.
#[derive(Clone, Copy, Debug, PartialEq, Eq)]
pub enum Form {
    /// The number of ranks.
    Ranks,
    /// The space of a rank.
    Space,
    /// The ranks whose calls follow.
    Rank,
    /// How often the calls up to `end` stand.
    Repeat,
    /// The end of a repeat.
    End,
    Call(CallForm),
}
