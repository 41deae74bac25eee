//! An access that is pending.
use rma_types::Access;

/// An access that is issued and not yet touched (MPI 3.1, section 11.7).
#[derive(Clone, Copy, Debug, PartialEq, Eq)]
pub struct PendingAccess {
    /// The index of its Issue item in its rank's log.
    pub index: u32,
    /// The number of its call in its rank's list.
    pub number: u32,
    pub access: Access,
    /// Whether its call fetches.
    pub fetches: bool,
}
