//! Accesses that wait to be touched wholly.

use rank_rules::PendingAccess;

/// A pending access, and how many of its elements are touched.
#[derive(Clone, Copy, Debug)]
pub(crate) struct Begun {
    pub(crate) access: PendingAccess,
    pub(crate) touched: u32,
}
