//! Counts by index, with 0 past the end.
ghost use Rattle.std.specs.Prelude.{◌≡◌, ◌≢◌, ℕ, ◌+◌, ◌<◌, ◌^◌, length, slice_index, if◌then◌else◌, OnOk};

use rma_types::NoMemory;

/// The count at an index.
pub(crate) fn count_at(counts: &[u32], at: usize) -> u32
    ensures { result ≡ slice_index counts.now at }
{
    match counts.get(at) {
        Some(count) => *count,
        None => 0,
    }
}

/// There is room for the count at an index to rise by one: it stays below 2 to 27.
pub(crate) fn make_room(counts: &mut Vec<u32>, at: usize) -> Result<(), NoMemory>
    requires { at < 2 ^ 32 }
    ensures room { OnOk result (at < length counts.new.items) }
    ensures small { OnOk result (slice_index counts.new.items at + 1 < 2 ^ 27) }
    ensures same { (index : ℕ) → slice_index counts.new.items index ≡
        slice_index counts.old.items index }
{
    if count_at(counts, at) >= (1 << 27) - 1 {
        return Err(NoMemory);
    }
    let start = counts.len();
    for next in start..at + 1 {
        match counts.push(0) {
            Ok(()) => {}
            Err(_) => return Err(NoMemory),
        }
    }
    Ok(())
}

/// The count at an index rises by one, where it is to.
pub(crate) fn add(counts: &mut Vec<u32>, at: usize, more: bool)
    requires room { at < length counts.old.items }
    requires small { slice_index counts.old.items at + 1 < 2 ^ 27 }
    ensures here { slice_index counts.new.items at ≡
        slice_index counts.old.items at + (if more then 1 else 0) }
    ensures others { (index : ℕ) → index ≢ at →
        slice_index counts.new.items index ≡ slice_index counts.old.items index }
{
    if more {
        counts[at] += 1;
    }
}
