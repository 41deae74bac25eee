//! The touches of an access.
ghost use Rattle.std.specs.Prelude.{◌≡◌, ◌+◌, ◌-◌, ◌*◌, ◌/◌, ◌%◌, ◌^◌, ◌<◌, ◌≤◌, ℕ, drop, false, Some, IsTrue, IsSome};
ghost use Rattle.std.specs.Prelude.{IfOk, IfSome, IsSomeAnd, MatchResult, MatchBool, OnErr};
ghost use Rattle.std.specs.Option.{ForSome};
ghost use Rattle.rma_types.specs.Actions.{transfer_of};
ghost use Rattle.call_rules.specs.Elements.{Fits, next};
ghost use Rattle.call_rules.specs.Pieces.{pieces};
ghost use Rattle.call_rules.specs.Touches.{touch_each};
ghost use Rattle.call_rules.specs.WellFormed.{IsWrittenCall};
ghost use Rattle.cell_face.specs.Faces.{cell_count, Rose, Keeps};
ghost use Rattle.access_steps.specs.Plans.{element_count, is_update, planned_touch, planned_touches};
ghost use Rattle.access_steps.specs.Plans.{is_add, IsAccessOf, IsTried, LiesWithin};
ghost use Rattle.access_steps.specs.TouchesMade.{TouchesKept, IsTouchEach, TouchesOne, TouchesNone};

use crate::changes::{change_of, dtype_of};
use call_rules::Change;
use cell_face::{Memory, Moved, Seen, next_bits};
use rma_record::{Item, Keep};
use rma_types::{Access, Call, Dtype, Layout, Op};
use window_regions::piece;

/// How far a call of `touch_on` came.
#[derive(Clone, Copy, Debug, PartialEq, Eq)]
pub struct Progress {
    /// The next element that is to be touched, 0 to 255; the number of elements, at most 256, where none is left.
    pub next: u32,
    /// Whether it stopped at that element because an attempt on it came too late.
    pub moved: bool,
}

/// Whether the change is the sum of a whole cell.
fn is_whole_sum(change: &Change) -> bool
    requires { Fits change.now }
    ensures add { result ≡ is_add change.now }
    ensures sum { IsTrue result → (bits : ℕ) → bits < 2 ^ 32 →
        next bits change.now ≡ (bits + change.now.operand) % 2 ^ 32 }
{
    let is_whole = match change.dtype {
        Dtype::Int32 | Dtype::Uint32 => true,
        Dtype::Int8 | Dtype::Int16 | Dtype::Uint8 | Dtype::Uint16 | Dtype::Byte => false,
    };
    is_whole && change.op == Op::Sum && change.compare.is_none()
}

/// Changes one cell: the sum of a whole cell is one add, and every other update one load and one attempt. Gives the
/// state before the change.
fn update_cell<M: Memory>(mem: &mut M, cell: u32, change: &Change) -> Result<Seen, Moved>
    requires cell { cell < cell_count (M.face mem.old) }
    requires change { Fits change.now }
    requires share { 1 ≤ (M.face mem.old).share }
    ensures touch { MatchResult result
        (λ seen. TouchesOne (M.face mem.old) (M.face mem.new) cell (Some change.now) seen)
        (λ _. TouchesNone (M.face mem.old) (M.face mem.new)) }
    ensures tried { OnErr result (is_add change.now ≡ false) }
    ensures found { IfOk result (λ seen. M.knows mem.new cell seen) }
    ensures known { Keeps (M.knows mem.old) (M.knows mem.new) }
{
    if is_whole_sum(change) {
        return Ok(mem.add(cell, change.operand));
    }
    let seen = mem.load(cell);
    match mem.attempt(cell, seen, next_bits(seen.bits, change)) {
        Ok(_) => Ok(seen),
        Err(moved) => Err(moved),
    }
}

/// Touches one cell: a read is one load. Gives the state before the touch.
fn touch_cell<M: Memory>(mem: &mut M, cell: u32, change: Option<Change>) -> Result<Seen, Moved>
    requires cell { cell < cell_count (M.face mem.old) }
    requires change { ForSome change Fits }
    requires share { IsSome change → 1 ≤ (M.face mem.old).share }
    ensures touch { MatchResult result
        (λ seen. TouchesOne (M.face mem.old) (M.face mem.new) cell change seen)
        (λ _. TouchesNone (M.face mem.old) (M.face mem.new)) }
    ensures tried { OnErr result (IsSomeAnd change (λ change. is_add change ≡ false)) }
    ensures found { IfOk result (λ seen. M.knows mem.new cell seen) }
    ensures known { Keeps (M.knows mem.old) (M.knows mem.new) }
{
    match change {
        None => Ok(mem.load(cell)),
        Some(change) => update_cell(mem, cell, &change),
    }
}

/// Touches the elements of an access from `from` on, in ascending order, until all are touched or an attempt came too
/// late. One Touch item is kept of each element touched; `issue` is the index of the access's Issue item in the same
/// log.
/// It takes no memory.
pub fn touch_on<M: Memory, L: Keep>(
    mem: &mut M,
    call: &Call,
    issue: u32,
    access: &Access,
    layout: &Layout,
    from: u32,
    log: &mut L,
) -> Progress
    requires call { IsWrittenCall call.now }
    requires access { IsAccessOf call.now access.now }
    requires cells { LiesWithin layout.now access.now call.now (cell_count (M.face mem.old)) }
    requires from { from ≤ element_count call.now }
    requires room { element_count call.now ≤ from + L.spare log.old }
    requires share { IsTrue (is_update call.now) →
        element_count call.now ≤ from + (M.face mem.old).share }

    ensures begin { from ≤ result.next }
    ensures end { result.next ≤ element_count call.now }
    ensures touches { TouchesKept (M.face mem.old) (M.face mem.new) (M.knows mem.new)
        (L.kept log.old) (L.kept log.new)
        issue (planned_touches layout.now access.now call.now from (result.next - from)) }
    ensures moved { MatchBool result.moved
        (Rose (M.face mem.old).moves (M.face mem.new).moves) ((M.face mem.new).moves ≡ (M.face mem.old).moves) }
    ensures left { MatchBool result.moved
        (result.next < element_count call.now) (result.next ≡ element_count call.now) }
    ensures tried { IsTrue result.moved →
        IsTried (planned_touch layout.now access.now call.now result.next) }
    ensures known { Keeps (M.knows mem.old) (M.knows mem.new) }

    // Where the memory tells its cells, no attempt comes too late.
    ensures told_whole { IfSome (M.face mem.old).told (λ _. result.moved ≡ false) }
    ensures told { IfSome (M.face mem.old).told (λ cells. IfSome (transfer_of call.now) (λ t.
        let left = drop from (pieces layout.now access.now t.dtype) in
        IsTouchEach t left issue from cells (M.face mem.new).told (L.kept log.old) (L.kept log.new))) }

    ensures spare { L.spare log.new + (result.next - from) ≡ L.spare log.old }
    ensures free_above { L.free log.old ≤ L.free log.new + (result.next - from) }
    ensures free_below { L.free log.new ≤ L.free log.old }
    ensures home { L.home log.new ≡ L.home log.old }
{
    let dtype = dtype_of(call);
    let count = access.len / dtype.size();
    for element in from..count {
        let piece = piece(layout, access.target, access.lo, dtype, element);
        let change = change_of(call, element, piece.first_byte);
        match touch_cell(mem, piece.cell, change) {
            Ok(seen) => log.keep(Item::Touch {
                issue,
                element,
                cell: piece.cell,
                place: seen.place,
                bits: u64::from(seen.bits),
            }),
            Err(_) => return Progress {
                next: element,
                moved: true,
            },
        }
    }
    Progress {
        next: count,
        moved: false,
    }
}
