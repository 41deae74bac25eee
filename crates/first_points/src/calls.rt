//! What the step of a call is to the points of an access.
ghost use Rattle.std.specs.Prelude.{◌≡◌, ◌==◌, ◌&&◌, false};
ghost use Rattle.std.specs.Option.{option_map_or};
ghost use Rattle.rma_types.specs.Actions.{action_of, synchronisation_of};
ghost use Rattle.call_rules.specs.Ranks.{natural};
ghost use Rattle.board_rules.specs.Entries.{Fence as FenceCollective, is_arrive, is_collective};
ghost use Rattle.board_rules.specs.Posts.{is_complete as completes, is_wait as waits};
ghost use Rattle.order_rules.specs.DonePoints.{completes_at_origin, completes_at_target};
ghost use Rattle.order_rules.specs.VisiblePoints.{gives_out as does_give_out, is_leave, takes_in as does_take_in};
ghost use Rattle.first_points.specs.KeptPoints.{issued_as};

use rank_records::KeptAccess;
use rma_types::{Call, Step};

fn is_arrival(step: Step) -> bool
    ensures { result ≡ is_arrive step }
{
    step == Step::Arrive
}

fn is_leaving(step: Step) -> bool
    ensures { result ≡ is_leave step }
{
    step == Step::Leave
}

fn is_fence(call: &Call) -> bool
    ensures { result ≡ is_collective FenceCollective call.now }
{
    matches!(call, Call::Fence { .. })
}

/// The step is the arrival at a fence (MPI 3.1, section 11.5.1).
pub(crate) fn arrives_at_fence(step: Step, call: &Call) -> bool
    ensures { result ≡ (is_arrive step && is_collective FenceCollective call.now) }
{
    is_arrival(step) && is_fence(call)
}

/// The call ends a start epoch (MPI 3.1, section 11.5.2).
pub(crate) fn is_complete(call: &Call) -> bool
    ensures { result ≡ option_map_or completes (synchronisation_of call.now) false }
{
    matches!(call, Call::Complete { .. })
}

/// The call waits for the end of a post epoch (MPI 3.1, section 11.5.2).
pub(crate) fn is_wait(call: &Call) -> bool
    ensures { result ≡ option_map_or waits (synchronisation_of call.now) false }
{
    matches!(call, Call::WaitWin { .. } | Call::TestWin { .. })
}

/// The number of a rank; a negative number counts as rank 0.
pub(crate) fn natural_rank(rank: i32) -> u32
    ensures { result ≡ natural rank }
{
    if rank < 0 { 0 } else { rank as u32 }
}

/// The access reaches this rank.
fn is_towards(rank: i32, access: &KeptAccess) -> bool
    ensures { result ≡ access.now.access.target == natural rank }
{
    u32::from(access.access.target) == natural_rank(rank)
}

/// The call completes the access at its target: an unlock or a flush of that rank, or of all (MPI 3.1, sections 11.5.3
/// and 11.5.4).
pub(crate) fn is_done_at_target(access: &KeptAccess, call: &Call) -> bool
    ensures { result ≡
        option_map_or (completes_at_target (issued_as access.now)) (synchronisation_of call.now) false }
{
    match call {
        Call::Unlock { win: _, target } | Call::Flush { win: _, target } => is_towards(
            *target, access,
        ),
        Call::UnlockAll { .. } | Call::FlushAll { .. } => true,
        _ => false,
    }
}

/// The call completes the access at its origin alone: a complete, or a local flush of its target or of all (MPI 3.1,
/// section 11.5.4).
pub(crate) fn is_done_at_origin(access: &KeptAccess, call: &Call) -> bool
    ensures { result ≡
        option_map_or (completes_at_origin (issued_as access.now)) (synchronisation_of call.now) false }
{
    match call {
        Call::FlushLocal { win: _, target } => is_towards(*target, access),
        Call::Complete { .. } | Call::FlushLocalAll { .. } => true,
        _ => false,
    }
}

/// At the step its rank sees in its own memory what RMA updates have left in the window (MPI 3.1, section 11.4).
pub(crate) fn takes_in(step: Step, call: &Call) -> bool
    ensures { result ≡ does_take_in step (action_of call.now) }
{
    match call {
        Call::Fence { .. } | Call::Free { .. } => is_leaving(step),
        Call::WaitWin { .. }
        | Call::TestWin { .. }
        | Call::LockOne { .. }
        | Call::LockAll { .. }
        | Call::Sync { .. } => true,
        _ => false,
    }
}

/// From the step on RMA accesses see what its rank has stored in the window (MPI 3.1, section 11.4).
pub(crate) fn gives_out(step: Step, call: &Call) -> bool
    ensures { result ≡ does_give_out step (action_of call.now) }
{
    match call {
        Call::Fence { .. } | Call::Free { .. } => is_arrival(step),
        Call::Post { .. } | Call::Unlock { .. } | Call::UnlockAll { .. } | Call::Sync { .. } =>
            true,
        _ => false,
    }
}
