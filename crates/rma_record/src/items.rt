//! The items of a log.
use rma_types::{Access, Class, Step};

/// One item of a rank's log.
///
/// `call` is the number of the call in its rank's list after repeats, from 0.
#[derive(Clone, Copy, Debug, PartialEq, Eq)]
pub enum Item {
    /// An access begins: an accepted RMA call, a load or a store.
    Issue {
        call: u32,
        access: Access,
    },
    /// An accepted RMA call whose target is MPI_PROC_NULL.
    Null {
        call: u32,
    },
    /// One element of an access is touched. `issue` is the index of the access's `Issue` in this log,
    /// `place` is the number of the cell's updates before this touch, and `bits` is the cell's state before it.
    Touch {
        issue: u32,
        element: u32,
        cell: u32,
        place: u32,
        bits: u64,
    },
    /// An accepted flush, flush_all, flush_local, flush_local_all or sync.
    Flush {
        call: u32,
    },
    /// An accepted waitreq or testreq.
    Request {
        call: u32,
    },
    /// The entry of the board at this place.
    Entry {
        call: u32,
        place: u32,
        step: Step,
    },
    /// A testwin that was false after the first `seen` entries.
    Tested {
        call: u32,
        seen: u32,
    },
    /// A refused call. `seen` is the number of entries that the deciding look saw, and 0 where the rank
    /// decided alone.
    Refused {
        call: u32,
        class: Class,
        seen: u32,
    },
    /// The rank has no more to do.
    Ended,
}
