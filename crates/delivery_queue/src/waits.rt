//! Which pending accesses a call must wait for (MPI 3.1, sections 11.3.5, 11.5 and 11.7).
ghost use Rattle.std.specs.Prelude.{◌≡◌, ◌&&◌};
ghost use Rattle.call_rules.specs.Ranks.{natural};
ghost use Rattle.call_rules.specs.WellFormed.{IsWrittenCall};
ghost use Rattle.delivery_queue.specs.Soughts.{is_sought};
ghost use Rattle.rank_rules.specs.declared.pending.PendingAccess.{PendingAccess as Access};
ghost use Rattle.rank_rules.specs.Pending.{is_on, is_towards, completes_access, must_wait as does_wait};

use crate::sought::Sought;
use rma_types::{Action, Call, Synchronisation};

/// The number of a rank; a negative number counts as rank 0.
fn rank_of(target: i32) -> u32
    ensures { result ≡ natural target }
{
    if target < 0 { 0 } else { target as u32 }
}

/// The accesses that reach the rank; all ranks, where none is named.
fn towards(win: u8, target: &Option<i32>) -> Sought
    ensures { (one : Access) → is_sought result one ≡ (is_on win one && is_towards target.now one) }
{
    match target {
        None => Sought::OnWindow { win },
        Some(target) => Sought::AtTarget {
            win,
            target: rank_of(*target),
        },
    }
}

/// The fetches among those.
fn fetches_towards(win: u8, target: &Option<i32>) -> Sought
    ensures { (one : Access) → is_sought result one
        ≡ (is_on win one && (is_towards target.now one && one.fetches)) }
{
    match target {
        None => Sought::FetchOnWindow { win },
        Some(target) => Sought::FetchAtTarget {
            win,
            target: rank_of(*target),
        },
    }
}

/// The accesses that a synchronisation on the window completes.
fn completed_by(win: u8, synchronisation: &Synchronisation<'_>) -> Sought
    ensures { (one : Access) → is_sought result one
        ≡ (is_on win one && completes_access synchronisation.now one) }
{
    match synchronisation {
        Synchronisation::Fences(_) | Synchronisation::Completes => Sought::OnWindow { win },
        Synchronisation::Unlocks(target) => towards(win, target),
        Synchronisation::Flushes { target, local } => {
            if *local {
                fetches_towards(win, target)
            } else {
                towards(win, target)
            }
        }
        Synchronisation::Posts(_, _)
        | Synchronisation::Starts(_, _)
        | Synchronisation::Waits { .. }
        | Synchronisation::Locks(_, _, _)
        | Synchronisation::Syncs => Sought::Nothing,
    }
}

/// The pending accesses that the call must wait for before its first item. `requests` has, for each name, the number of
/// the call that made the live request of that name.
pub(crate) fn awaited_by(requests: &[Option<u32>; 64], call: &Call) -> Sought
    requires { IsWrittenCall call.now }
    ensures { (one : Access) → is_sought result one ≡ does_wait requests.now call.now one }
{
    match call.action() {
        Action::Synchronises(win, synchronisation) => completed_by(win, &synchronisation),
        Action::EndsRequest { req } => Sought::FetchOfCall {
            maker: requests[usize::from(req)],
        },
        Action::Creates(_)
        | Action::Frees { .. }
        | Action::Attaches { .. }
        | Action::Detaches { .. }
        | Action::Meets
        | Action::Moves(_) => Sought::Nothing,
    }
}
