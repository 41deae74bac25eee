//! What a call is to its rank: the items that it has where it is accepted, and what it says of its access.
ghost use Rattle.std.specs.Prelude.{◌≡◌, ◌&&◌, nat_lt, is_some, false};
ghost use Rattle.std.specs.Option.{option_map_or, option_and_then};
ghost use Rattle.rma_types.specs.Actions.{action_of, transfer_of};
ghost use Rattle.rank_rules.specs.Courses as rules;
ghost use Rattle.step_runs.specs.DataSteps.{is_at_once as is_made_at_once};
ghost use Rattle.rank_engine.specs.Moves.{request_ended as request_ended_by};
ghost use Rattle.rank_engine.specs.Courses.{items_of};

use rma_types::{Access, Action, Call, Delay, Kind, Synchronisation, Target, Transfer};
use window_regions::WindowTable;

/// The items of an accepted call.
#[derive(Clone, Copy, Debug, PartialEq, Eq)]
pub enum Course {
    /// One Null: the target is MPI_PROC_NULL.
    Null,
    /// One Issue.
    Issue,
    /// An entry and then an Issue: an RMA call on a dynamic window.
    LookUpAndIssue,
    /// One Flush.
    Flush,
    /// One Request.
    Request,
    /// An Arrive and then a Leave: a collective call.
    ArriveAndLeave,
    /// An entry, or a Tested: a testwin.
    EntryOrTested,
    /// One entry.
    OneEntry,
}

/// The items of a call that moves data.
fn course_of_transfer(windows: &WindowTable, transfer: &Transfer<'_>) -> Course
    ensures { items_of result ≡ rules.course_of_transfer windows.now transfer.now }
{
    match transfer.target {
        Target::Own => Course::Issue,
        Target::Null => Course::Null,
        Target::Named(_) => {
            if windows.is_dynamic(transfer.win) {
                Course::LookUpAndIssue
            } else {
                Course::Issue
            }
        }
    }
}

/// The items of a call that synchronises.
fn course_of_synchronisation(synchronisation: &Synchronisation<'_>) -> Course
    ensures { items_of result ≡ rules.course_of_synchronisation synchronisation.now }
{
    match synchronisation {
        Synchronisation::Fences(_) => Course::ArriveAndLeave,
        Synchronisation::Waits { tests: true } => Course::EntryOrTested,
        Synchronisation::Posts(..)
        | Synchronisation::Starts(..)
        | Synchronisation::Completes
        | Synchronisation::Waits { tests: false }
        | Synchronisation::Locks(..)
        | Synchronisation::Unlocks(_) => Course::OneEntry,
        Synchronisation::Flushes { .. } | Synchronisation::Syncs => Course::Flush,
    }
}

/// The items that the call has where it is accepted.
pub fn course_of(windows: &WindowTable, call: &Call) -> Course
    ensures { items_of result ≡ rules.course_of windows.now call.now }
{
    match call.action() {
        Action::Creates(_) | Action::Frees { .. } | Action::Meets => Course::ArriveAndLeave,
        Action::Attaches { .. } | Action::Detaches { .. } => Course::OneEntry,
        Action::Synchronises(_, synchronisation) => course_of_synchronisation(&synchronisation),
        Action::Moves(transfer) => course_of_transfer(windows, &transfer),
        Action::EndsRequest { .. } => Course::Request,
    }
}

impl Course {
    /// Whether a call with this course has an entry of the board.
    pub fn has_entry(self) -> bool
        ensures { result ≡ rules.has_entry (items_of self) }
    {
        match self {
            Course::Null => false,
            Course::Issue => false,
            Course::LookUpAndIssue => true,
            Course::Flush => false,
            Course::Request => false,
            Course::ArriveAndLeave => true,
            Course::EntryOrTested => true,
            Course::OneEntry => true,
        }
    }
}

/// Whether the call moves data.
pub fn is_transfer(call: &Call) -> bool
    ensures { result ≡ is_some (transfer_of call.now) }
{
    match call.action() {
        Action::Moves(_) => true,
        _ => false,
    }
}

/// Whether the call moves data to its rank.
pub fn does_fetch(call: &Call) -> bool
    ensures { result ≡ option_map_or (λ t. t.fetches) (transfer_of call.now) false }
{
    match call.action() {
        Action::Moves(transfer) => transfer.fetches,
        _ => false,
    }
}

/// The request that the call makes, if it is one that moves data.
pub fn request_of(call: &Call) -> Option<u8>
    ensures { result ≡ option_and_then (λ t. t.request) (transfer_of call.now) }
{
    match call.action() {
        Action::Moves(transfer) => transfer.request,
        _ => None,
    }
}

/// The request that the call ends.
pub fn request_ended(call: &Call) -> Option<u8>
    ensures { result ≡ request_ended_by (action_of call.now) }
{
    match call.action() {
        Action::EndsRequest { req } => Some(req),
        _ => None,
    }
}

/// Whether the access is touched in the step of its Issue: a load and a store always, others where nothing is delayed.
pub fn is_at_once(delay: Delay, access: &Access) -> bool
    ensures { result ≡ is_made_at_once delay access.now }
{
    match delay {
        Delay::None => true,
        Delay::End | Delay::Seeded => match access.kind {
            Kind::Load | Kind::Store => true,
            Kind::Get | Kind::Put | Kind::Acc { .. } | Kind::Cas { .. } => false,
        },
    }
}

/// Whether the access has bytes, and is touched in the step of its Issue.
pub fn is_touched_now(delay: Delay, access: &Access) -> bool
    ensures { result ≡ (nat_lt 0 access.now.len && is_made_at_once delay access.now) }
{
    0 < access.len && is_at_once(delay, access)
}
