//! The touches of a run, each with its change.
ghost use Rattle.std.specs.Prelude.{◌≡◌, [], ◌∷◌, ◌++◌, OnOk, IfOk};
ghost use Rattle.std.specs.List.{AllByRecursion};
ghost use Rattle.std.specs.Option.{option_map_or};
ghost use Rattle.rma_types.specs.declared.scripts.Layout.{Layout as LayoutValue};
ghost use Rattle.call_rules.specs.WellFormed.{IsWellFormed, IsWrittenCall};
ghost use Rattle.lawful_runs.specs.Accesses.{all_touches, on_cell, touches_of, touching_by, updates_in};
ghost use Rattle.cell_replay.specs.Kept.{change_issued as change_issued_by, change_kept, touching_of};
ghost use Rattle.cell_replay.specs.Kept.{touchings_of};

use crate::changes::change_in;
use call_rules::Change;
use rank_records::{calls_at, log_at};
use rma_record::{Item, Run};
use rma_types::{Call, Id, Items, NoMemory, Script};
use std::alloc::Global;

/// A touch: its name, the index of its access's Issue in its log, its element, its cell, its place, its bits, and the
/// change that it makes, if it is an update (MPI 3.1, section 11.7, in this project's profile).
#[derive(Clone, Copy, Debug, PartialEq, Eq)]
pub(crate) struct CellTouch {
    pub(crate) id: Id,
    pub(crate) issue: u32,
    pub(crate) element: u32,
    pub(crate) cell: u32,
    pub(crate) place: u32,
    pub(crate) bits: u64,
    pub(crate) change: Option<Change>,
}

/// The change that an access makes to one of its elements, where the item issues it.
fn change_issued(calls: &[Call], element: u32, item: &Item) -> Option<Change>
    requires { AllByRecursion IsWrittenCall calls.now }
    ensures { result ≡ change_issued_by calls.now element item.now }
{
    match item {
        Item::Issue { call, access } => match calls.get(*call as usize) {
            Some(call) => change_in(access, call, element),
            None => None,
        },
        _ => None,
    }
}

/// The change that a touch makes of an element, whose access's Issue has this index.
fn change_at(calls: &[Call], log: &[Item], issue: u32, element: u32) -> Option<Change>
    requires { AllByRecursion IsWrittenCall calls.now }
    ensures { result ≡ change_kept calls.now log.now issue element }
{
    match log.get(issue as usize) {
        Some(item) => change_issued(calls, element, item),
        None => None,
    }
}

/// The touch of this name that an item is.
fn touch_of(calls: &[Call], log: &[Item], id: Id, item: &Item) -> Option<CellTouch>
    requires { AllByRecursion IsWrittenCall calls.now }
    ensures { (memory : LayoutValue) → option_map_or (λ touch. touching_of touch ∷ []) result [] ≡
        touching_by memory calls.now log.now id item.now }
{
    match *item {
        Item::Touch {
            issue,
            element,
            cell,
            place,
            bits,
        } => Some(CellTouch {
            id,
            issue,
            element,
            cell,
            place,
            bits,
            change: change_at(calls, log, issue, element),
        }),
        _ => None,
    }
}

/// One touch more, where there is one.
fn push_touch(touches: &mut Vec<CellTouch>, touch: Option<CellTouch>) -> Result<(), NoMemory>
    ensures { OnOk result (touchings_of touches.new.items ≡
        touchings_of touches.old.items ++ option_map_or (λ touch. touching_of touch ∷ []) touch []) }
{
    if let Some(touch) = touch {
        let Ok(()) = touches.push(touch) else {
            return Err(NoMemory);
        };
    }
    Ok(())
}

/// The touches of a rank's log more.
fn push_touches(
    script: &Script,
    run: &Run,
    rank: u8,
    touches: &mut Vec<CellTouch>,
) -> Result<(), NoMemory>
    requires { IsWellFormed script.now }
    ensures { OnOk result (touchings_of touches.new.items ≡
        touchings_of touches.old.items ++ touches_of script.now run.now rank) }
{
    let calls = calls_at(script, rank);
    let log = log_at(run, rank);
    for at in 0..log.len() {
        let Ok(index) = u32::try_from(at) else {
            return Err(NoMemory);
        };
        let id = Id { rank, index };
        push_touch(touches, touch_of(calls, log, id, &log[at]))?;
    }
    Ok(())
}

/// The touches of a run, by rank.
pub(crate) fn touches_in(
    alloc: Global,
    script: &Script,
    run: &Run,
) -> Result<Vec<CellTouch>, NoMemory>
    requires { IsWellFormed script.now }
    ensures { IfOk result (λ touches. touchings_of touches.items ≡ all_touches script.now run.now) }
{
    let mut touches: Vec<CellTouch> = Vec::new(alloc);
    for rank in 0..script.ranks {
        push_touches(script, run, rank, &mut touches)?;
    }
    Ok(touches)
}

/// The updates of a cell among some touches.
pub(crate) fn updates_on(
    alloc: Global,
    touches: &[CellTouch],
    cell: u64,
) -> Result<Vec<CellTouch>, NoMemory>
    ensures { IfOk result (λ updates.
        touchings_of updates.items ≡ updates_in (on_cell cell (touchings_of touches.now))) }
{
    let mut updates: Vec<CellTouch> = Vec::new(alloc);
    for touch in touches {
        if u64::from(touch.cell) == cell && touch.change.is_some() {
            let Ok(()) = updates.push(*touch) else {
                return Err(NoMemory);
            };
        }
    }
    Ok(updates)
}
