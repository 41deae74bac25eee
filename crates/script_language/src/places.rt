//! The places of a line, each of which a token fills.

/// An assertion of a synchronisation call (MPI 3.1, section 11.5.5).
#[derive(Clone, Copy, Debug, PartialEq, Eq)]
pub enum Assertion {
    NoCheck,
    NoStore,
    NoPut,
    NoPrecede,
    NoSucceed,
}

/// What a token of a line says.
#[derive(Clone, Copy, Debug, PartialEq, Eq)]
pub enum Place {
    /// The number of ranks, 1 to 16.
    Ranks,
    /// The rank that has the space.
    Owner,
    /// The bytes of a space, 0 to 65,536.
    Room,
    /// The first rank of a block.
    Member,
    /// The further ranks of a block.
    Members,
    /// How often a repeat stands, 1 to 65,536.
    Times,
    /// The name of a request, `q0` to `q63`.
    Request,
    /// The name of a window, `w0` to `w31`.
    Window,
    /// An address.
    Base,
    /// The bytes of a range, at most 65,536.
    Size,
    /// A displacement unit, at most 64 (MPI 3.1, section 11.2.1).
    Unit,
    /// The kind of a lock (MPI 3.1, section 11.5.3).
    LockKind,
    /// The rank that a synchronisation is with.
    Peer,
    /// The ranks of a group, at most 16 (MPI 3.1, section 11.5.2).
    Group,
    /// Assertions, in any number (MPI 3.1, section 11.5.5).
    Assertions,
    /// The target of a transfer: a rank, or `null` for MPI_PROC_NULL (MPI 3.1, section 11.3).
    Target,
    /// A displacement (MPI 3.1, section 11.3).
    Displacement,
    /// A datatype (MPI 3.1, section 3.2.2).
    ElementType,
    /// The operation of an accumulate (MPI 3.1, section 11.3.4).
    Operation,
    /// The number of elements, at most 256.
    Count,
    /// The number that a `cas` compares with (MPI 3.1, section 11.3.4).
    Compare,
    /// The one number of a `fop` or a `cas`.
    Value,
    /// The numbers of a transfer, at most 256.
    Values,
}
