//! What a call is. One table says it of all calls (`Call::action`), and all else goes by what a call is.
use crate::accesses::Kind;
use crate::calls::{Asserts, Flavor, Lock};
use crate::dtypes::Dtype;
use crate::ops::Op;
use std::marker::Model;
use std::slice;

/// The ranks that a call names, as they stand in the script. Contracts see the list alone.
#[derive(Debug, Drop)]
pub struct Ranks<'a> {
    items: &'a [i32],
}

impl<'a> Model for Ranks<'a> {
    ghost use Rattle.std.specs.Prelude.{List, ℤ};

    ghost Value = { List ℤ };

    ghost view = { λ it. it.items.now };
}

impl<'a> Ranks<'a> {
    ghost use Rattle.std.specs.Prelude.{◌≡◌};

    pub fn new(items: &'a [i32]) -> Ranks<'a>
        ensures { result ≡ items.now }
    {
        Ranks { items }
    }

    pub fn as_slice(&self) -> &'a [i32]
        ensures { result.now ≡ self.now }
    {
        self.items
    }
}

/// The operands of a transfer, one bit pattern for each element of an update. Contracts see the list alone.
#[derive(Debug, Drop)]
pub struct Operands<'a> {
    items: &'a [u64],
}

impl<'a> Model for Operands<'a> {
    ghost use Rattle.std.specs.Prelude.{List, ℕ};

    ghost Value = { List ℕ };

    ghost view = { λ it. it.items.now };
}

impl<'a> Operands<'a> {
    ghost use Rattle.std.specs.Prelude.{◌≡◌, [], ◌∷◌};

    /// No operand: a get's and a load's.
    pub fn none() -> Operands<'a>
        ensures { result ≡ [] }
    {
        Operands { items: &[] }
    }

    pub fn one(value: &'a u64) -> Operands<'a>
        ensures { result ≡ value.now ∷ [] }
    {
        Operands {
            items: slice::from_ref(value),
        }
    }

    pub fn new(items: &'a [u64]) -> Operands<'a>
        ensures { result ≡ items.now }
    {
        Operands { items }
    }

    pub fn as_slice(&self) -> &'a [u64]
        ensures { result.now ≡ self.now }
    {
        self.items
    }
}

/// Whose memory a transfer reaches: the calling rank's own by a load or a store, that of a named rank, or that of
/// MPI_PROC_NULL, which is none (MPI 3.1, section 11.3).
#[derive(Clone, Copy, Debug, PartialEq, Eq)]
pub enum Target {
    Own,
    Null,
    Named(i32),
}

/// A call that moves data (MPI 3.1, section 11.3). A get and a load have the operation no_op; a put, a store and a cas
/// have replace.
#[derive(Debug, Drop)]
pub struct Transfer<'a> {
    pub request: Option<u8>,
    pub win: u8,
    pub target: Target,
    /// The displacement, in units of the target's part of the window.
    pub disp: i32,
    pub dtype: Dtype,
    /// The number of elements.
    pub count: i64,
    pub kind: Kind,
    pub fetches: bool,
    pub op: Op,
    pub operands: Operands<'a>,
    pub compare: Option<u64>,
}

/// A call that makes a window (MPI 3.1, section 11.2): its name, its flavor, and the range and the unit that the rank
/// brings to it.
#[derive(Clone, Copy, Debug, PartialEq, Eq)]
pub struct Creation {
    pub win: u8,
    pub flavor: Flavor,
    pub base: i32,
    pub bytes: i32,
    pub unit: i32,
}

/// A call that opens or closes an epoch, or completes accesses within one (MPI 3.1, section 11.5). A wait that tests is
/// testwin. A lock, an unlock and a flush of no target are those of all ranks; lock_all is a shared lock. A local flush
/// completes at the origin alone.
#[derive(Debug, Drop)]
pub enum Synchronisation<'a> {
    Fences(Asserts),
    Posts(Ranks<'a>, Asserts),
    Starts(Ranks<'a>, Asserts),
    Completes,
    Waits { tests: bool },
    Locks(Lock, Option<i32>, Asserts),
    Unlocks(Option<i32>),
    Flushes { target: Option<i32>, local: bool },
    Syncs,
}

/// What a call is.
#[derive(Debug, Drop)]
pub enum Action<'a> {
    /// It makes a window.
    Creates(Creation),
    /// It frees the window of this name.
    Frees { win: u8 },
    /// It attaches a range to a dynamic window: its base and its bytes.
    Attaches { win: u8, base: i32, bytes: i32 },
    /// It detaches the range that begins at the base.
    Detaches { win: u8, base: i32 },
    /// It synchronises on the window of this name.
    Synchronises(u8, Synchronisation<'a>),
    /// It meets all ranks at a barrier, on no window.
    Meets,
    /// It moves data.
    Moves(Transfer<'a>),
    /// It ends the request of this name: waitreq and testreq.
    EndsRequest { req: u8 },
}
