//! What a call does to the tables, by what the call is.
ghost use Rattle.std.specs.Prelude.{ℕ, List, [], ◌∷◌, ◌++◌, Some};
ghost use Rattle.rma_types.specs.Actions.{action_of};
ghost use Rattle.call_rules.specs.Ranks.{members_of, natural};
ghost use Rattle.entry_gains.specs.Deeds.{IsDeed, IsGroup, IsReach, IsSynchronisationDeed};

use crate::slots::Meeting;
use rma_types::{Action, Call, Lock, Synchronisation};

/// The ranks that a lock or an unlock is for: those from the first up to, but without, the end (MPI 3.1, section
/// 11.5.3).
#[derive(Clone, Copy, Debug)]
pub struct Reach {
    pub first: u8,
    pub end: u8,
}

/// What a call does.
#[derive(Clone, Copy, Debug)]
pub(crate) enum Deed {
    Nothing,
    Meets(Meeting),
    Posts([bool; 16]),
    Starts([bool; 16]),
    Completes,
    Waits,
    Locks { kind: Lock, reach: Reach },
    Unlocks { reach: Reach },
}

/// One rank more in a group; a negative rank counts as 0, and none from 16 on is told.
fn add_member(named: &mut [bool; 16], member: &i32)
    ensures { (members : List ℕ) →
        IsGroup named.old members → IsGroup named.new (members ++ natural member.now ∷ []) }
{
    let rank = (*member).max(0);
    if rank >= 16 {
        return;
    }
    named[rank as usize] = true;
}

/// For each of 16 ranks whether the group has it; a negative rank counts as 0.
fn named(group: &[i32]) -> [bool; 16]
    ensures { IsGroup result (members_of group.now) }
{
    let mut named = [false; 16];
    for member in group {
        add_member(&mut named, member);
    }
    named
}

/// The one target, where it is below 32.
fn one_target(target: &i32) -> Reach
    ensures { (ranks : ℕ) → IsReach ranks (Some target.now) result }
{
    let rank = (*target).max(0);
    if rank < 32 {
        Reach {
            first: rank as u8,
            end: rank as u8 + 1,
        }
    } else {
        Reach { first: 0, end: 0 }
    }
}

/// The targets of a lock or an unlock: all ranks, where it names none.
fn reach_of(ranks: u8, target: &Option<i32>) -> Reach
    ensures { IsReach ranks target.now result }
{
    match target {
        None => Reach {
            first: 0,
            end: ranks,
        },
        Some(target) => one_target(target),
    }
}

fn synchronisation_deed(ranks: u8, synchronisation: &Synchronisation<'_>) -> Deed
    ensures { IsSynchronisationDeed ranks synchronisation.now result }
{
    match synchronisation {
        Synchronisation::Fences(_) => Deed::Meets(Meeting::Fence),
        Synchronisation::Posts(group, _) => Deed::Posts(named(group.as_slice())),
        Synchronisation::Starts(group, _) => Deed::Starts(named(group.as_slice())),
        Synchronisation::Completes => Deed::Completes,
        Synchronisation::Waits { .. } => Deed::Waits,
        Synchronisation::Locks(kind, target, _) => Deed::Locks {
            kind: *kind,
            reach: reach_of(ranks, target),
        },
        Synchronisation::Unlocks(target) => Deed::Unlocks {
            reach: reach_of(ranks, target),
        },
        Synchronisation::Flushes { .. } | Synchronisation::Syncs => Deed::Nothing,
    }
}

/// What a call does, in a run of so many ranks.
pub(crate) fn deed_of(ranks: u8, call: &Call) -> Deed
    ensures { IsDeed ranks (action_of call.now) result }
{
    match call.action() {
        Action::Creates(_) => Deed::Meets(Meeting::Creation),
        Action::Frees { .. } => Deed::Meets(Meeting::Freeing),
        Action::Synchronises(_, synchronisation) => synchronisation_deed(ranks, &synchronisation),
        Action::Meets => Deed::Meets(Meeting::Barrier),
        Action::Attaches { .. }
        | Action::Detaches { .. }
        | Action::Moves(_)
        | Action::EndsRequest { .. } => Deed::Nothing,
    }
}
