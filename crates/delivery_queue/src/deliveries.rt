//! The touches of one pending access.
ghost use Rattle.std.specs.Prelude.{◌≡◌, ◌+◌, ◌-◌, ◌≤◌, ◌<◌, length, false, drop, IsTrue, IfOk, IfSome, OnErr};
ghost use Rattle.std.specs.Prelude.{MatchBool};
ghost use Rattle.access_steps.specs.Plans.{element_count, is_update, planned_touch, planned_touches, IsTried};
ghost use Rattle.access_steps.specs.TouchesMade.{TouchesKept, IsTouchEach};
ghost use Rattle.rma_types.specs.Actions.{transfer_of};
ghost use Rattle.call_rules.specs.Pieces.{pieces};
ghost use Rattle.cell_face.specs.Faces.{cell_count, Rose, Keeps};
ghost use Rattle.delivery_queue.specs.Queues.{IsOfCall};

use access_steps::{Progress, dtype_of, touch_on};
use cell_face::Memory;
use rank_rules::PendingAccess;
use rma_record::Keep;
use rma_types::{Call, Layout, NoMemory};

/// Makes room for the touches of an access from one of its elements on, and makes them.
pub fn touch_pending<M: Memory, L: Keep>(
    one: &PendingAccess,
    from: u32,
    mem: &mut M,
    layout: &Layout,
    call: &Call,
    log: &mut L,
) -> Result<Progress, NoMemory>
    requires call { IsOfCall layout.now (cell_count (M.face mem.old)) one.now call.now }
    requires from { from ≤ element_count call.now }
    requires room { element_count call.now ≤ from + L.free log.old }
    requires share { IsTrue (is_update call.now) →
        element_count call.now ≤ from + (M.face mem.old).share }

    ensures begin { IfOk result (λ progress. from ≤ progress.next) }
    ensures end { IfOk result (λ progress. progress.next ≤ element_count call.now) }
    ensures count { IfOk result (λ progress.
        length (L.kept log.new) ≡ length (L.kept log.old) + (progress.next - from)) }
    ensures touches { IfOk result (λ progress.
        TouchesKept (M.face mem.old) (M.face mem.new) (M.knows mem.new)
        (L.kept log.old) (L.kept log.new) one.now.index
        (planned_touches layout.now one.now.access call.now from (progress.next - from))) }
    ensures moved { IfOk result (λ progress. MatchBool progress.moved
        (Rose (M.face mem.old).moves (M.face mem.new).moves) ((M.face mem.new).moves ≡ (M.face mem.old).moves)) }
    ensures left { IfOk result (λ progress. MatchBool progress.moved
        (progress.next < element_count call.now) (progress.next ≡ element_count call.now)) }
    ensures tried { IfOk result (λ progress. IsTrue progress.moved →
        IsTried (planned_touch layout.now one.now.access call.now progress.next)) }
    ensures told_whole { IfOk result (λ progress.
        IfSome (M.face mem.old).told (λ _. progress.moved ≡ false)) }
    ensures told { IfOk result (λ _. IfSome (M.face mem.old).told
        (λ cells. IfSome (transfer_of call.now) (λ t.
        let left = drop from (pieces layout.now one.now.access t.dtype) in
        IsTouchEach t left one.now.index from cells (M.face mem.new).told (L.kept log.old) (L.kept log.new)))) }
    ensures known { Keeps (M.knows mem.old) (M.knows mem.new) }
    ensures free_above { IfOk result (λ progress.
        L.free log.old ≤ L.free log.new + (progress.next - from)) }
    ensures free_below { L.free log.new ≤ L.free log.old }
    ensures home { L.home log.new ≡ L.home log.old }
    ensures kept { OnErr result (L.kept log.new ≡ L.kept log.old) }
    ensures unchanged { OnErr result (mem.new ≡ mem.old) }
{
    let count = one.access.len / dtype_of(call).size();
    log.reserve(count - from)?;
    Ok(touch_on(mem, call, one.index, &one.access, layout, from, log))
}
