//! The done points and the visible points of one access.
ghost use Rattle.std.specs.Prelude.{◌≡◌, [], ◌∷◌, Bool, IfOk};
ghost use Rattle.std.specs.List.{filter};
ghost use Rattle.rma_types.specs.declared.accesses.Id.{Id as IdValue};
ghost use Rattle.rma_types.specs.declared.schedules.Delay.TheVariants.{Seeded};
ghost use Rattle.call_rules.specs.WellFormed.{IsWellFormed};
ghost use Rattle.lawful_runs.specs.LawfulRun.{IsLawful};
ghost use Rattle.order_rules.specs.Before.{IsOrder};
ghost use Rattle.order_rules.specs.CallSteps.{IssuedAccess, steps_in};
ghost use Rattle.order_rules.specs.DonePoints.{done_points as done_points_by, done_points_of, ids_of, timeline_of};
ghost use Rattle.order_rules.specs.Roles.{role_of};
ghost use Rattle.order_rules.specs.VisiblePoints.{is_taken_in_at, separate_points, unified_points};
ghost use Rattle.order_rules.specs.VisiblePoints.{visible_points as visible_points_by, visible_points_of};
ghost use Rattle.rank_records.specs.Kept.{IsKeptAccess, IsRecorded};
ghost use Rattle.first_points.specs.KeptPoints.{first_after as first_after_of};
ghost use Rattle.first_points.specs.declared.searches.Sought.TheVariants.{GivingOut};
ghost use Rattle.every_point.specs.Edges.{is_among};
ghost use Rattle.every_point.specs.Points.{all_steps as all_steps_of, is_later_sought, leads_from};
ghost use Rattle.every_point.specs.Points.{names_passing, step_before as step_before_of};

use crate::edges::led_by;
use crate::kept::{access_named, all_steps, done_among, given_out_among, taken_in_among};
use first_points::{Sought, first_after};
use rank_records::{EpochKind, KeptAccess, KeptStep, RunRecord, records_of};
use rma_record::Run;
use rma_rules::{Part, part_of};
use rma_types::{Id, Items, Model, NoMemory, Script};
use std::alloc::Global;
use vector_clocks::clocks_by;

/// The first step of the origin after the access that is what is looked for on its window.
fn first_later(recorded: &RunRecord, sought: Sought, access: &KeptAccess) -> Option<KeptStep>
    requires { IsRecorded recorded.now }
    ensures { result ≡
        first_after_of recorded.now.script.now recorded.now.ranks.items sought access.now }
{
    let records = recorded.ranks.as_slice();
    first_after(recorded.script, records, sought, access)
}

/// The step from which edges lead to where the access is done: the arrival of its origin at its next fence, or its next
/// complete (MPI 3.1, section 11.5).
fn step_before(recorded: &RunRecord, access: &KeptAccess) -> Option<KeptStep>
    requires { IsRecorded recorded.now }
    ensures { result ≡ step_before_of recorded.now.script.now recorded.now.ranks.items
        access.now.epoch access.now }
{
    match access.epoch {
        EpochKind::NoEpoch => None,
        EpochKind::Fence => first_later(recorded, Sought::FenceArrival, access),
        EpochKind::Start => first_later(recorded, Sought::Complete, access),
        EpochKind::Passive => None,
    }
}

/// The names of the entries to which an edge leads from that step.
fn led_after(
    alloc: Global,
    recorded: &RunRecord,
    access: &KeptAccess,
) -> Result<Items<Id>, NoMemory>
    requires { IsRecorded recorded.now }
    ensures { IfOk result (λ led. (id : IdValue) → is_among led id ≡
        leads_from recorded.now.script.now recorded.now.run.now
        (step_before_of recorded.now.script.now recorded.now.ranks.items access.now.epoch
        access.now) id) }
{
    match step_before(recorded, access) {
        Some(step) => led_by(alloc, recorded, step.id),
        None => Ok(Items::new(alloc)),
    }
}

/// The done points of an access.
fn done_of(alloc: Global, recorded: &RunRecord, access: &KeptAccess) -> Result<Items<Id>, NoMemory>
    requires { IsRecorded recorded.now }
    ensures { IfOk result (λ points. (a : IssuedAccess) → IsKeptAccess access.now a →
        points ≡ done_points_by (timeline_of recorded.now.script.now recorded.now.run.now) a) }
{
    let led = led_after(alloc, recorded, access)?;
    let records = recorded.ranks.as_slice();
    let steps = all_steps(alloc, records)?;
    done_among(
        alloc,
        recorded.script,
        led.as_slice(),
        access,
        steps.as_slice(),
    )
}

/// The steps at which an RMA update is visible to the owner of the memory.
fn visible_to_owner(
    alloc: Global,
    recorded: &RunRecord,
    access: &KeptAccess,
) -> Result<Items<Id>, NoMemory>
    requires { IsRecorded recorded.now }
    ensures { IfOk result (λ points. (a : IssuedAccess) (before : IdValue → IdValue → Bool) →
        IsKeptAccess access.now a → IsOrder recorded.now.script.now recorded.now.run.now before →
        points ≡ ids_of (filter (is_taken_in_at before a
        (done_points_by (timeline_of recorded.now.script.now recorded.now.run.now) a))
        (steps_in recorded.now.script.now recorded.now.run.now))) }
{
    let done = done_of(alloc, recorded, access)?;
    let clocks = clocks_by(alloc, recorded)?;
    let records = recorded.ranks.as_slice();
    let steps = all_steps(alloc, records)?;
    taken_in_among(
        alloc,
        recorded.script,
        &clocks,
        done.as_slice(),
        access,
        steps.as_slice(),
    )
}

/// The steps from which on RMA accesses see a store.
fn visible_to_others(
    alloc: Global,
    recorded: &RunRecord,
    access: &KeptAccess,
) -> Result<Items<Id>, NoMemory>
    ensures { IfOk result (λ points. points ≡
        names_passing (is_later_sought recorded.now.script.now GivingOut access.now)
        (all_steps_of recorded.now.ranks.items)) }
{
    let records = recorded.ranks.as_slice();
    let steps = all_steps(alloc, records)?;
    given_out_among(alloc, recorded.script, access, steps.as_slice())
}

/// The visible points of an access in the separate model of memory (MPI 3.1, section 11.4).
fn visible_separate(
    alloc: Global,
    recorded: &RunRecord,
    access: &KeptAccess,
) -> Result<Items<Id>, NoMemory>
    requires { IsRecorded recorded.now }
    ensures { IfOk result (λ points. (a : IssuedAccess) (before : IdValue → IdValue → Bool) →
        IsKeptAccess access.now a → IsOrder recorded.now.script.now recorded.now.run.now before →
        points ≡ separate_points before
        (timeline_of recorded.now.script.now recorded.now.run.now) a
        (role_of access.now.access.kind)) }
{
    match part_of(access.access.kind) {
        Part::Update => visible_to_owner(alloc, recorded, access),
        Part::Store => visible_to_others(alloc, recorded, access),
        Part::Read | Part::Load => Ok(Items::new(alloc)),
    }
}

/// The name of an access alone.
fn own_name(alloc: Global, access: &KeptAccess) -> Result<Items<Id>, NoMemory>
    ensures { IfOk result (λ points. points ≡ access.now.id ∷ []) }
{
    match Items::from_slice(alloc, &[access.id]) {
        Ok(points) => Ok(points),
        Err(_) => Err(NoMemory),
    }
}

/// The visible points of an access in the unified model: an RMA update is visible where it is done, and a store at once
/// (MPI 3.1, section 11.4).
fn visible_unified(
    alloc: Global,
    recorded: &RunRecord,
    access: &KeptAccess,
) -> Result<Items<Id>, NoMemory>
    requires { IsRecorded recorded.now }
    ensures { IfOk result (λ points. (a : IssuedAccess) → IsKeptAccess access.now a →
        points ≡ unified_points (timeline_of recorded.now.script.now recorded.now.run.now) a
        (role_of access.now.access.kind)) }
{
    match part_of(access.access.kind) {
        Part::Update => done_of(alloc, recorded, access),
        Part::Store => own_name(alloc, access),
        Part::Read | Part::Load => Ok(Items::new(alloc)),
    }
}

/// The visible points of an access.
fn visible_of(
    alloc: Global,
    recorded: &RunRecord,
    model: Model,
    access: &KeptAccess,
) -> Result<Items<Id>, NoMemory>
    requires { IsRecorded recorded.now }
    ensures { IfOk result (λ points. (a : IssuedAccess) (before : IdValue → IdValue → Bool) →
        IsKeptAccess access.now a → IsOrder recorded.now.script.now recorded.now.run.now before →
        points ≡ visible_points_by model before
        (timeline_of recorded.now.script.now recorded.now.run.now) a) }
{
    match model {
        Model::Separate => visible_separate(alloc, recorded, access),
        Model::Unified => visible_unified(alloc, recorded, access),
    }
}

/// The done points of the RMA access of this name in a lawful run, in the order of their names: exactly those of the
/// definitions (MPI 3.1, sections 11.3.5, 11.5 and 11.7, in this project's profile). Where no access has the name,
/// there are none.
///
/// It goes once through all logs, and once through all entries. A run that is lawful with any delay is lawful with
/// drawn ones (`order_laws`).
pub fn done_points(alloc: Global, script: &Script, run: &Run, id: Id) -> Result<Items<Id>, NoMemory>
    requires formed { IsWellFormed script.now }
    requires lawful { IsLawful script.now Seeded run.now }
    ensures { IfOk result (λ points. points ≡ done_points_of script.now run.now id) }
{
    let recorded = records_of(alloc, script, run)?;
    match access_named(recorded.ranks.as_slice(), id) {
        Some(access) => done_of(alloc, &recorded, &access),
        None => Ok(Items::new(alloc)),
    }
}

/// The visible points of the update of this name in a lawful run, in the order of their names: exactly those of the
/// definitions, by the order of the run (MPI 3.1, sections 11.4 and 11.7, in this project's profile). Where no update
/// has the name, there are none. The clocks are made here.
pub fn visible_points(
    alloc: Global,
    script: &Script,
    run: &Run,
    id: Id,
    model: Model,
) -> Result<Items<Id>, NoMemory>
    requires formed { IsWellFormed script.now }
    requires lawful { IsLawful script.now Seeded run.now }
    ensures { IfOk result (λ points. (before : IdValue → IdValue → Bool) →
        IsOrder script.now run.now before →
        points ≡ visible_points_of script.now run.now model before id) }
{
    let recorded = records_of(alloc, script, run)?;
    match access_named(recorded.ranks.as_slice(), id) {
        Some(access) => visible_of(alloc, &recorded, model, &access),
        None => Ok(Items::new(alloc)),
    }
}
