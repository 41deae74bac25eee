//! The scripts that several tests play, and the names of their items.
use rma_types::Id;

pub(crate) fn id(rank: u8, index: u32) -> Id {
    Id { rank, index }
}

/// Rank 0 puts and flushes before a barrier, and rank 1 loads behind it, without a sync.
pub(crate) const PUT_FLUSHED: &str =
    "ranks 2\nrank 0\nallocate w0 4 4\nlock_all w0\nput w0 1 0 int32 5\nflush w0 1\nbarrier\nunlock_all w0\nrank 1\nallocate w0 4 4\nlock_all w0\nbarrier\nload w0 0 int32 1\nunlock_all w0\n";

/// No barrier stands between the put and the load.
pub(crate) const PUT_BESIDE_LOAD: &str =
    "ranks 2\nrank 0\nallocate w0 4 4\nlock_all w0\nput w0 1 0 int32 5\nunlock_all w0\nrank 1\nallocate w0 4 4\nlock_all w0\nload w0 0 int32 1\nunlock_all w0\n";

pub(crate) const PUT_BETWEEN_FENCES: &str =
    "ranks 2\nrank 0 1\nallocate w0 4 4\nfence w0\nrank 0\nput w0 1 0 int32 5\nrank 0 1\nfence w0\nfence w0\n";

/// Each of four ranks posts to the one before it, and puts to the one behind it.
pub(crate) const RING: &str =
    "ranks 4\nrank 0 1 2 3\nallocate w0 4 4\nrank 0\npost w0 3\nstart w0 1\nput w0 1 0 int32 5\nrank 1\npost w0 0\nstart w0 2\nput w0 2 0 int32 5\nrank 2\npost w0 1\nstart w0 3\nput w0 3 0 int32 5\nrank 3\npost w0 2\nstart w0 0\nput w0 0 0 int32 5\nrank 0 1 2 3\ncomplete w0\nwait w0\n";
