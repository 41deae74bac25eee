//! The points of an access: of each log the first step, which stands for the later ones.
ghost use Rattle.std.specs.Prelude.{◌≡◌, ◌++◌, map, OnOk, IfOk};
ghost use Rattle.order_rules.specs.Roles.{role_of};
ghost use Rattle.vector_clocks.specs.Marks.{before_in};
ghost use Rattle.rma_rules.specs.Same.{role_by};
ghost use Rattle.first_points.specs.Alike.{judged_by};
ghost use Rattle.first_points.specs.KeptPoints.{done, done_by as done_by_of, kept_accesses};
ghost use Rattle.first_points.specs.KeptPoints.{point as point_of, with_points};
ghost use Rattle.first_points.specs.KeptPoints.{visible_separate as visible_separate_of};
ghost use Rattle.first_points.specs.KeptPoints.{visible_unified as visible_unified_of};
ghost use Rattle.first_points.specs.Tables.{HaveTheirSteps, searched};

use crate::accesses::JudgedPoints;
use crate::searches::Sought;
use crate::step_searches::StepSearches;
use rank_records::{EpochKind, KeptAccess, KeptStep};
use rma_rules::{Part, part_of};
use rma_types::{Id, Items, Model, NoMemory};
use std::alloc::Global;
use vector_clocks::Clocks;

/// Where an RMA access is done by the epoch in which it was issued (MPI 3.1, sections 11.5 and 11.7, in this project's
/// profile).
///
/// The arrival at a fence stands for the leavings to which it leads, and the first wait which the complete of a start
/// epoch is before for the waits to which that leads.
fn done_by(searches: &StepSearches, clocks: &Clocks, access: &KeptAccess) -> Option<KeptStep>
    requires { HaveTheirSteps searches.now }
    ensures { result ≡
        done_by_of searches.now.script.now (searched searches.now) (before_in clocks.now)
        access.now.epoch access.now }
{
    match access.epoch {
        EpochKind::NoEpoch => None,
        EpochKind::Fence => searches.first_after(Sought::FenceArrival, access),
        EpochKind::Start => match searches.first_after(Sought::Complete, access) {
            Some(complete) => searches.first_reached(clocks, &[complete.id], Sought::Wait, access),
            None => None,
        },
        EpochKind::Passive => searches.first_after(Sought::AtTarget, access),
    }
}

/// One point more, where a step was found.
fn put_point(points: &mut Items<Id>, found: Option<KeptStep>) -> Result<(), NoMemory>
    ensures { OnOk result (points.new ≡ points.old ++ point_of found) }
{
    if let Some(step) = found {
        if points.push(step.id).is_err() {
            return Err(NoMemory);
        }
    }
    Ok(())
}

/// The done points of an access that stand for all. A read is done besides where it is complete at the origin (MPI 3.1,
/// sections 11.3.5, 11.5 and 11.7, in this project's profile).
fn done_points(
    alloc: Global,
    searches: &StepSearches,
    clocks: &Clocks,
    access: &KeptAccess,
) -> Result<Items<Id>, NoMemory>
    requires { HaveTheirSteps searches.now }
    ensures { IfOk result (λ points. points ≡
        done searches.now.script.now (searched searches.now) (before_in clocks.now)
        (role_of access.now.access.kind) access.now) }
{
    let mut points = Items::new(alloc);
    match part_of(access.access.kind) {
        Part::Update => put_point(&mut points, done_by(searches, clocks, access))?,
        Part::Read => {
            put_point(&mut points, done_by(searches, clocks, access))?;
            put_point(&mut points, searches.first_after(Sought::AtOrigin, access))?;
            put_point(&mut points, searches.first_end(access))?;
        }
        Part::Store | Part::Load => {}
    }
    Ok(points)
}

/// The visible points, in the separate model, of an access with these done points (MPI 3.1, sections 11.4 and 11.7, in
/// this project's profile).
fn visible_separate(
    alloc: Global,
    searches: &StepSearches,
    clocks: &Clocks,
    done: &[Id],
    access: &KeptAccess,
) -> Result<Items<Id>, NoMemory>
    requires { HaveTheirSteps searches.now }
    ensures { IfOk result (λ points. points ≡
        visible_separate_of searches.now.script.now (searched searches.now) (before_in clocks.now)
        done.now (role_of access.now.access.kind) access.now) }
{
    let mut points = Items::new(alloc);
    match part_of(access.access.kind) {
        Part::Update => put_point(
            &mut points,
            searches.first_reached(clocks, done, Sought::TakingIn, access),
        )?,
        Part::Store => put_point(&mut points, searches.first_after(Sought::GivingOut, access))?,
        Part::Read | Part::Load => {}
    }
    Ok(points)
}

/// The visible points, in the unified model, of an access with these done points: an RMA update is visible where it is
/// done, and a store at once (MPI 3.1, sections 11.4 and 11.7, in this project's profile).
fn visible_unified(alloc: Global, done: &[Id], access: &KeptAccess) -> Result<Items<Id>, NoMemory>
    ensures { IfOk result (λ points. points ≡
        visible_unified_of done.now (role_of access.now.access.kind) access.now) }
{
    let points = match part_of(access.access.kind) {
        Part::Update => Items::from_slice(alloc, done),
        Part::Store => Items::from_slice(alloc, &[access.id]),
        Part::Read | Part::Load => Ok(Items::new(alloc)),
    };
    points.map_err(|_| NoMemory)
}

/// An access with points that stand for all of its points.
fn points_of(
    alloc: Global,
    searches: &StepSearches,
    clocks: &Clocks,
    model: Model,
    access: &KeptAccess,
) -> Result<JudgedPoints, NoMemory>
    requires { HaveTheirSteps searches.now }
    ensures { IfOk result (λ points. judged_by points ≡
        with_points searches.now.script.now (searched searches.now) (before_in clocks.now) model
        access.now) }
{
    let done = done_points(alloc, searches, clocks, access)?;
    let visible = match model {
        Model::Separate => visible_separate(alloc, searches, clocks, done.as_slice(), access)?,
        Model::Unified => visible_unified(alloc, done.as_slice(), access)?,
    };
    Ok(JudgedPoints {
        id: access.id,
        access: access.access,
        done,
        visible,
    })
}

/// Some accesses more, each with its points.
fn add_points(
    alloc: Global,
    searches: &StepSearches,
    clocks: &Clocks,
    model: Model,
    accesses: &[KeptAccess],
    list: &mut Vec<JudgedPoints>,
) -> Result<(), NoMemory>
    requires { HaveTheirSteps searches.now }
    ensures { OnOk result (map judged_by list.new.items ≡ map judged_by list.old.items
        ++ map (with_points searches.now.script.now (searched searches.now) (before_in clocks.now)
        model) accesses.now) }
{
    for access in accesses {
        let points = points_of(alloc, searches, clocks, model, access)?;
        if list.push(points).is_err() {
            return Err(NoMemory);
        }
    }
    Ok(())
}

/// The accesses of all ranks, in the order of their names, each with points that stand for all of its points.
pub(crate) fn all_points(
    alloc: Global,
    searches: &StepSearches,
    clocks: &Clocks,
    model: Model,
) -> Result<Vec<JudgedPoints>, NoMemory>
    requires { HaveTheirSteps searches.now }
    ensures { IfOk result (λ list. map judged_by list.items ≡
        map (with_points searches.now.script.now (searched searches.now) (before_in clocks.now) model)
        (kept_accesses (searched searches.now))) }
{
    let mut list = Vec::new(alloc);
    for rank in searches.ranks.as_slice() {
        let accesses = rank.kept.accesses.as_slice();
        add_points(alloc, searches, clocks, model, accesses, &mut list)?;
    }
    Ok(list)
}
