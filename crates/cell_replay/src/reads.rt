//! Ordered reads.
ghost use Rattle.std.specs.Prelude.{◌≡◌, ◌<◌, ◌≤◌, ◌^◌, ◌/◌, ◌+◌, IfOk, IfSome, map};
ghost use Rattle.std.specs.List.{filter};
ghost use Rattle.rma_types.specs.declared.schedules.Delay.TheVariants.{Seeded};
ghost use Rattle.call_rules.specs.Pieces.{element_address, first_cell, piece_at, pieces};
ghost use Rattle.call_rules.specs.WellFormed.{IsWellFormed};
ghost use Rattle.lawful_runs.specs.Accesses.{Touching, on_cell, updates_in};
ghost use Rattle.lawful_runs.specs.LawfulRun.{IsLawful};
ghost use Rattle.lawful_runs.specs.Logs.{calls_of};
ghost use Rattle.order_rules.specs.OrderedReads.{left_before as left_before_item, ordered_read_of};
ghost use Rattle.vector_clocks.specs.Marks.{before_in};
ghost use Rattle.cell_replay.specs.Kept.{access_by as access_of_item, access_named, DoFit, element_left, touchings_of};

use crate::changes::dtype_of;
use crate::states::state_of;
use crate::touches::{CellTouch, touches_in, updates_on};
use cell_face::element_in;
use rank_records::{calls_at, log_at};
use rma_record::{Item, Run};
use rma_types::{Access, Bits, Call, Dtype, Id, Items, Layout, NoMemory, Script};
use script_layout::layout_of;
use std::alloc::Global;
use vector_clocks::Clocks;
use window_regions::piece;

/// Those of some updates that are before the item.
pub(crate) fn updates_before(
    alloc: Global,
    updates: &[CellTouch],
    clocks: &Clocks,
    id: Id,
) -> Result<Vec<CellTouch>, NoMemory>
    ensures { IfOk result (λ earlier. touchings_of earlier.items ≡
        filter (λ (update : Touching). before_in clocks.now update.id id) (touchings_of updates.now)) }
{
    let mut earlier: Vec<CellTouch> = Vec::new(alloc);
    for update in updates {
        if clocks.before(update.id, id) {
            let Ok(()) = earlier.push(*update) else {
                return Err(NoMemory);
            };
        }
    }
    Ok(earlier)
}

/// What the updates of a cell that are before the item leave, in the order of their places.
fn left_before(
    alloc: Global,
    touches: &[CellTouch],
    clocks: &Clocks,
    id: Id,
    cell: u64,
) -> Result<u32, NoMemory>
    requires { DoFit (touchings_of touches.now) }
    ensures { IfOk result (λ bits. bits ≡ left_before_item (before_in clocks.now) id
        (updates_in (on_cell cell (touchings_of touches.now)))) }
{
    let updates = updates_on(alloc, touches, cell)?;
    let earlier = updates_before(alloc, updates.as_slice(), clocks, id)?;
    Ok(state_of(earlier.as_slice(), updates.len()))
}

/// An element of an access, as the updates before the item leave it.
fn read_element(
    alloc: Global,
    layout: &Layout,
    touches: &[CellTouch],
    clocks: &Clocks,
    id: Id,
    access: &Access,
    dtype: Dtype,
    element: u32,
) -> Result<u64, NoMemory>
    requires fit { DoFit (touchings_of touches.now) }
    requires cell { (piece_at layout.now access.now.target
        (element_address access.now dtype element)).cell < 2 ^ 32 }
    ensures { IfOk result (λ value. value ≡
        element_left (touchings_of touches.now) (before_in clocks.now) id dtype
        (piece_at layout.now access.now.target (element_address access.now dtype element))) }
{
    let piece = piece(layout, access.target, access.lo, dtype, element);
    let bits = left_before(alloc, touches, clocks, id, u64::from(piece.cell))?;
    Ok(u64::from(element_in(bits, piece.first_byte, dtype)))
}

/// The elements of an access, as the updates before the item leave them.
fn read_elements(
    alloc: Global,
    layout: &Layout,
    touches: &[CellTouch],
    clocks: &Clocks,
    id: Id,
    access: Access,
    dtype: Dtype,
) -> Result<Bits, NoMemory>
    requires fit { DoFit (touchings_of touches.now) }
    requires cells { first_cell layout.now access.target ≤ 65536 }
    ensures { IfOk result (λ values. values ≡
        map (element_left (touchings_of touches.now) (before_in clocks.now) id dtype)
        (pieces layout.now access dtype)) }
{
    let mut values: Bits = Items::new(alloc);
    for element in 0..access.len / dtype.size() {
        let value = read_element(alloc, layout, touches, clocks, id, &access, dtype, element)?;
        let Ok(()) = values.push(value) else {
            return Err(NoMemory);
        };
    }
    Ok(values)
}

/// The access that an item issues, with the datatype of its elements (MPI 3.1, section 11.3).
pub(crate) fn access_by(calls: &[Call], item: &Item) -> Option<(Access, Dtype)>
    ensures { result ≡ access_of_item calls.now item.now }
{
    match item {
        Item::Issue { call, access } => match calls.get(*call as usize) {
            Some(call) => match dtype_of(call) {
                Some(dtype) => Some((*access, dtype)),
                None => None,
            },
            None => None,
        },
        _ => None,
    }
}

/// The access that the item of this name issues, with the datatype of its elements.
fn access_at(script: &Script, run: &Run, id: Id) -> Option<(Access, Dtype)>
    ensures { result ≡ access_named script.now run.now id }
{
    if id.rank >= script.ranks {
        return None;
    }
    match log_at(run, id.rank).get(id.index as usize) {
        Some(item) => access_by(calls_at(script, id.rank), item),
        None => None,
    }
}

/// What the updates that are ordered before a get or a load leave in its elements, element by element, in the order of
/// the updates' places (MPI 3.1, section 11.7, in this project's profile). Where the item of this name issues no
/// access, there are no elements.
pub fn ordered_read(
    alloc: Global,
    script: &Script,
    run: &Run,
    clocks: &Clocks,
    id: Id,
) -> Result<Bits, NoMemory>
    requires formed { IsWellFormed script.now }
    requires lawful { IsLawful script.now Seeded run.now }
    ensures { IfOk result (λ values.
        values ≡ ordered_read_of script.now run.now (before_in clocks.now) id) }
{
    match access_at(script, run, id) {
        Some((access, dtype)) => {
            let layout = layout_of(alloc, script)?;
            let touches = touches_in(alloc, script, run)?;
            read_elements(
                alloc,
                &layout,
                touches.as_slice(),
                clocks,
                id,
                access,
                dtype,
            )
        }
        None => Ok(Items::new(alloc)),
    }
}
