//! What an accepted call does to the tables of its rank: a call of 32 kinds as one of six.
ghost use Rattle.std.specs.Prelude.{◌≡◌, ◌<◌, if◌then◌else◌, IfSome};
ghost use Rattle.rma_types.specs.Actions.{action_of};
ghost use Rattle.rank_records.specs.Deeds.{
  IsWrittenDeed,
  deed_by,
  ended_in,
  is_transfer,
  moved_in,
  turn_by,
  window_in,
};
ghost use Rattle.rank_records.specs.declared.deeds.Deed.TheVariants.{Turns, Moves};
ghost use Rattle.rank_records.specs.declared.deeds.Turn.TheVariants.{End, Fence};

use rma_types::{Action, Call, Synchronisation};

/// What an accepted synchronisation makes of the access epoch on its window (MPI 3.1, section 11.5): it stays, it
/// ends, that of a fence or of a start begins, a post ends that of a fence, a target is locked or unlocked, or all are
/// locked.
#[derive(Clone, Copy, Debug, PartialEq, Eq)]
pub(crate) enum Turn {
    Stay,
    End,
    Fence,
    Start,
    Post,
    Lock,
    Unlock,
    LockAll,
}

/// What an accepted call does: it makes or frees a window, turns the epoch on one, moves data, ends a request, or does
/// nothing to any window.
#[derive(Clone, Copy, Debug, PartialEq, Eq)]
pub(crate) enum Deed {
    Makes { win: u8 },
    Frees { win: u8 },
    Turns { win: u8, turn: Turn },
    Meets,
    Moves { win: u8, request: Option<u8> },
    Ends { request: u8 },
}

fn turns(win: u8, turn: Turn) -> Deed
    ensures { result ≡ Turns win turn }
{
    Deed::Turns { win, turn }
}

fn moves(win: u8, request: Option<u8>) -> Deed
    ensures { result ≡ Moves win request }
{
    Deed::Moves { win, request }
}

/// A fence begins an epoch, unless it has the assertion `nosucceed` (MPI 3.1, section 11.5.5).
fn fence_turn(is_last: bool) -> Turn
    ensures { result ≡ (if is_last then End else Fence) }
{
    if is_last { Turn::End } else { Turn::Fence }
}

/// What an accepted synchronisation makes of the access epoch on its window.
fn turn_of(synchronisation: &Synchronisation<'_>) -> Turn
    ensures { result ≡ turn_by synchronisation.now }
{
    match synchronisation {
        Synchronisation::Fences(asserts) => fence_turn(asserts.nosucceed),
        Synchronisation::Posts(..) => Turn::Post,
        Synchronisation::Starts(..) => Turn::Start,
        Synchronisation::Completes => Turn::End,
        Synchronisation::Waits { .. } => Turn::Stay,
        Synchronisation::Locks(_, Some(_), _) => Turn::Lock,
        Synchronisation::Locks(_, None, _) => Turn::LockAll,
        Synchronisation::Unlocks(Some(_)) => Turn::Unlock,
        Synchronisation::Unlocks(None) => Turn::End,
        Synchronisation::Flushes { .. } => Turn::Stay,
        Synchronisation::Syncs => Turn::Stay,
    }
}

/// What an accepted call does.
pub(crate) fn deed_of(call: &Call) -> Deed
    ensures { result ≡ deed_by (action_of call.now) }
{
    match call.action() {
        Action::Creates(creation) => Deed::Makes { win: creation.win },
        Action::Frees { win } => Deed::Frees { win },
        Action::Attaches { win, .. } => turns(win, Turn::Stay),
        Action::Detaches { win, .. } => turns(win, Turn::Stay),
        Action::Synchronises(win, synchronisation) => turns(win, turn_of(&synchronisation)),
        Action::Meets => Deed::Meets,
        Action::Moves(transfer) => moves(transfer.win, transfer.request),
        Action::EndsRequest { req } => Deed::Ends { request: req },
    }
}

impl Deed {
    /// The name of the window that the call names.
    pub(crate) fn window(self) -> Option<u8>
        requires { IsWrittenDeed self }
        ensures value { result ≡ window_in self }
        ensures within { IfSome result (λ win. win < 32) }
    {
        match self {
            Deed::Makes { win } => Some(win),
            Deed::Frees { win } => Some(win),
            Deed::Turns { win, .. } => Some(win),
            Deed::Meets => None,
            Deed::Moves { win, .. } => Some(win),
            Deed::Ends { .. } => None,
        }
    }

    /// The name of the request that the call ends.
    pub(crate) fn ended(self) -> Option<u8>
        requires { IsWrittenDeed self }
        ensures value { result ≡ ended_in self }
        ensures within { IfSome result (λ request. request < 64) }
    {
        match self {
            Deed::Ends { request } => Some(request),
            _ => None,
        }
    }

    /// The name of the window on which the call moves data.
    pub(crate) fn moved(self) -> Option<u8>
        requires { IsWrittenDeed self }
        ensures value { result ≡ moved_in self }
        ensures within { IfSome result (λ win. win < 32) }
    {
        match self {
            Deed::Moves { win, .. } => Some(win),
            _ => None,
        }
    }

    /// Whether the call moves data.
    pub(crate) fn is_move(self) -> bool
        ensures { result ≡ is_transfer self }
    {
        match self {
            Deed::Moves { .. } => true,
            _ => false,
        }
    }
}
