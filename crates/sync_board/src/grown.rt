//! Lists that have an item for an index once it was used. An index past the end stands for an item that did nothing.
ghost use Rattle.std.specs.Prelude.{ℕ, ◌≡◌, ◌<◌, ◌≤◌, length, slice_index_or, OnOk, OnErr};

use rma_types::NoMemory;
use std::alloc::Global;

/// What a rank or a window is before anything was done.
pub(crate) trait Idle: Drop {
    /// Nothing was done.
    ghost is_idle: { Self → Type 0 };

    fn idle(alloc: Global) -> Self
        ensures { is_idle result };
}

/// The list has at least so many items: those that it had, and then idle ones.
pub(crate) fn grow_to<T: Idle>(
    items: &mut Vec<T>,
    alloc: Global,
    count: usize,
) -> Result<(), NoMemory>
    ensures long { OnOk result (count ≤ length items.new.items) }
    ensures longer { length items.old.items ≤ length items.new.items }
    ensures same { (at : ℕ) (none : T) → at < length items.old.items →
        slice_index_or items.new.items at none ≡ slice_index_or items.old.items at none }
    ensures idle { (at : ℕ) (none : T) → length items.old.items ≤ at → at < length items.new.items →
        T.is_idle (slice_index_or items.new.items at none) }
{
    let start = items.len();
    if start == 0 {
        // most windows are of few ranks: exactly the room that the first of them needs
        items.reserve_exact(count).map_err(|_| NoMemory)?;
    }
    for next in start..count {
        let item = T::idle(alloc);
        match items.push(item) {
            Ok(()) => {}
            Err(_) => return Err(NoMemory),
        }
    }
    Ok(())
}
