//! The states of cells.
ghost use Rattle.std.specs.Prelude.{◌≡◌, ◌≤◌, ℕ, IfOk, IfSome, length, slice_get, Some};
ghost use Rattle.std.specs.List.{find};
ghost use Rattle.std.specs.Option.{option_map, option_map_or};
ghost use Rattle.call_rules.specs.Elements.{Fits};
ghost use Rattle.rma_types.specs.declared.schedules.Delay.TheVariants.{Seeded};
ghost use Rattle.call_rules.specs.WellFormed.{IsWellFormed};
ghost use Rattle.lawful_runs.specs.Accesses.{Touching};
ghost use Rattle.lawful_runs.specs.Cells.{bits_after as changed_by, has_place, state};
ghost use Rattle.lawful_runs.specs.LawfulRun.{IsLawful};
ghost use Rattle.order_rules.specs.OrderedReads.{updates_of};
ghost use Rattle.cell_replay.specs.Kept.{DoFit, touching_of, touchings_of};

use crate::touches::{CellTouch, touches_in, updates_on};
use call_rules::Change;
use cell_face::next_bits;
use rma_record::Run;
use rma_types::{NoMemory, Script};
use std::alloc::Global;

/// The first of some updates that has this place.
pub(crate) fn update_at(updates: &[CellTouch], place: usize) -> Option<CellTouch>
    ensures { option_map touching_of result ≡ find (has_place place) (touchings_of updates.now) }
{
    for update in updates {
        if update.place as usize == place {
            return Some(*update);
        }
    }
    None
}

/// The bits after a change, where there is one.
fn changed(bits: u32, change: Option<Change>) -> u32
    requires { IfSome change Fits }
    ensures { result ≡ changed_by bits change }
{
    match change {
        Some(change) => next_bits(bits, &change),
        None => bits,
    }
}

/// The bits of a cell, at first 0, after its updates with the places below `places`, in this order.
pub(crate) fn state_of(updates: &[CellTouch], places: usize) -> u32
    requires { DoFit (touchings_of updates.now) }
    ensures { result ≡ state (touchings_of updates.now) places }
{
    let mut bits = 0;
    for place in 0..places {
        if let Some(update) = update_at(updates, place) {
            bits = changed(bits, update.change);
        }
    }
    bits
}

/// The bits of a cell, at first 0, after its updates with the places below `place`, in this order, of a lawful run (MPI
/// 3.1, section 11.7.1, in this project's profile: the updates of one location follow each other).
///
/// It goes through the whole record once, and keeps each touch of it while it runs.
pub fn state_at(
    alloc: Global,
    script: &Script,
    run: &Run,
    cell: u32,
    place: u32,
) -> Result<u64, NoMemory>
    requires formed { IsWellFormed script.now }
    requires lawful { IsLawful script.now Seeded run.now }
    ensures { IfOk result (λ bits. bits ≡ state (updates_of script.now run.now cell) place) }
{
    let touches = touches_in(alloc, script, run)?;
    let updates = updates_on(alloc, touches.as_slice(), u64::from(cell))?;
    Ok(u64::from(state_of(updates.as_slice(), place as usize)))
}
