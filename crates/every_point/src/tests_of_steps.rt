//! Whether an access is done or visible at a step.
ghost use Rattle.std.specs.Prelude.{◌≡◌, ◌&&◌, ◌==◌};
ghost use Rattle.std.specs.List.{list_any};
ghost use Rattle.order_rules.specs.Before.{is_same_id};
ghost use Rattle.order_rules.specs.Roles.{is_rma_read, role_of};
ghost use Rattle.rma_rules.specs.Same.{role_by};
ghost use Rattle.vector_clocks.specs.Marks.{before_in};
ghost use Rattle.every_point.specs.Edges.{is_among as is_among_of};
ghost use Rattle.every_point.specs.Points.{is_done as is_done_of, is_done_at_origin as is_done_at_origin_of};
ghost use Rattle.every_point.specs.Points.{is_done_by as is_done_by_of, is_later as is_later_of};
ghost use Rattle.every_point.specs.Points.{is_later_sought as is_later_sought_of, is_taken_in as is_taken_in_of};

use crate::edges::is_same;
use first_points::{Sought, do_reach, ends_request, is_sought};
use rank_records::{EpochKind, KeptAccess, KeptStep};
use rma_rules::{Part, part_of};
use rma_types::{Id, Kind, Script};
use vector_clocks::Clocks;

/// One of the names is this one.
fn is_among(ids: &[Id], id: Id) -> bool
    ensures { result ≡ is_among_of ids.now id }
{
    for one in ids {
        if is_same(*one, id) {
            return true;
        }
    }
    false
}

/// The step stands after the access in the log of its origin.
fn is_later(access: &KeptAccess, step: &KeptStep) -> bool
    ensures { result ≡ is_later_of access.now step.now }
{
    step.id.rank == access.id.rank && access.id.index < step.id.index
}

/// The step stands after the access in the log of its origin, and is what is looked for on its window.
pub(crate) fn is_later_sought(
    script: &Script,
    sought: Sought,
    access: &KeptAccess,
    step: &KeptStep,
) -> bool
    ensures { result ≡ is_later_sought_of script.now sought access.now step.now }
{
    is_later(access, step) && is_sought(script, sought, access, step)
}

/// The access is done at the step by the epoch in which it was issued (MPI 3.1, section 11.5), where edges lead to
/// these entries from the next fence of its origin, or from its next complete.
fn is_done_by(script: &Script, led: &[Id], access: &KeptAccess, step: &KeptStep) -> bool
    ensures { result ≡ is_done_by_of script.now led.now access.now access.now.epoch step.now }
{
    match access.epoch {
        EpochKind::NoEpoch => false,
        EpochKind::Fence => is_among(led, step.id),
        EpochKind::Start => is_among(led, step.id) && step.id.rank == access.access.target,
        EpochKind::Passive => is_later_sought(script, Sought::AtTarget, access, step),
    }
}

/// The access is a read of RMA.
fn is_read(kind: Kind) -> bool
    ensures { result ≡ is_rma_read (role_of kind) }
{
    match part_of(kind) {
        Part::Read => true,
        Part::Update | Part::Store | Part::Load => false,
    }
}

/// The access is complete at its origin at the step, or its request ends there (MPI 3.1, sections 11.3.5 and 11.5.4).
fn is_done_at_origin(script: &Script, access: &KeptAccess, step: &KeptStep) -> bool
    ensures { result ≡ is_done_at_origin_of script.now access.now step.now }
{
    is_later_sought(script, Sought::AtOrigin, access, step)
        || (is_later(access, step) && ends_request(access, step))
}

/// The access is done at the step. A read is done besides where it is complete at the origin (MPI 3.1, sections 11.3.5,
/// 11.5 and 11.7, in this project's profile).
pub(crate) fn is_done(script: &Script, led: &[Id], access: &KeptAccess, step: &KeptStep) -> bool
    ensures { result ≡ is_done_of script.now led.now access.now step.now }
{
    is_done_by(script, led, access, step)
        || (is_read(access.access.kind) && is_done_at_origin(script, access, step))
}

/// The RMA update with these done points is visible to the owner of the memory at the step (MPI 3.1, section 11.4).
pub(crate) fn is_taken_in(
    script: &Script,
    clocks: &Clocks,
    done: &[Id],
    access: &KeptAccess,
    step: &KeptStep,
) -> bool
    ensures { result ≡ is_taken_in_of script.now
        (before_in clocks.now) done.now access.now step.now }
{
    step.id.rank == access.access.target
        && is_sought(script, Sought::TakingIn, access, step)
        && do_reach(clocks, done, step.id)
}
