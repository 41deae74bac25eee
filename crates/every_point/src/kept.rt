//! The steps of a run in one list, those at which an access is done or visible, and the access of a name.
ghost use Rattle.std.specs.Prelude.{◌≡◌, ◌++◌, [], IfOk, OnOk};
ghost use Rattle.std.specs.List.{find, flat_map};
ghost use Rattle.first_points.specs.declared.searches.Sought.TheVariants.{GivingOut};
ghost use Rattle.vector_clocks.specs.Marks.{before_in};
ghost use Rattle.every_point.specs.Points.{access_named as access_named_of, all_steps as all_steps_of};
ghost use Rattle.every_point.specs.Points.{is_done as is_done_of, is_later_sought as is_later_sought_of};
ghost use Rattle.every_point.specs.Points.{is_named, is_taken_in as is_taken_in_of, names_passing};

use crate::edges::is_same;
use crate::tests_of_steps::{is_done, is_later_sought, is_taken_in};
use first_points::Sought;
use rank_records::{KeptAccess, KeptStep, RankRecord};
use rma_types::{Id, Items, NoMemory, Script};
use std::alloc::Global;
use vector_clocks::Clocks;

/// The steps of all ranks, in the order of their names.
pub(crate) fn all_steps(alloc: Global, records: &[RankRecord]) -> Result<Vec<KeptStep>, NoMemory>
    ensures { IfOk result (λ steps. steps.items ≡ all_steps_of records.now) }
{
    let mut steps: Vec<KeptStep> = Vec::new(alloc);
    for record in records {
        if steps.extend_from_slice(record.steps.as_slice()).is_err() {
            return Err(NoMemory);
        }
    }
    Ok(steps)
}

/// The access of this name among some.
fn access_among(accesses: &[KeptAccess], id: Id) -> Option<KeptAccess>
    ensures { result ≡ find (is_named id) accesses.now }
{
    for access in accesses {
        if is_same(access.id, id) {
            return Some(*access);
        }
    }
    None
}

/// The access of this name.
pub(crate) fn access_named(records: &[RankRecord], id: Id) -> Option<KeptAccess>
    ensures { result ≡ access_named_of id records.now }
{
    for record in records {
        match access_among(record.accesses.as_slice(), id) {
            Some(access) => return Some(access),
            None => {}
        }
    }
    None
}

/// The names of those steps at which the access is done.
pub(crate) fn done_among(
    alloc: Global,
    script: &Script,
    led: &[Id],
    access: &KeptAccess,
    steps: &[KeptStep],
) -> Result<Items<Id>, NoMemory>
    ensures { IfOk result (λ points. points ≡
        names_passing (is_done_of script.now led.now access.now) steps.now) }
{
    let mut points = Items::new(alloc);
    for step in steps {
        if is_done(script, led, access, step) {
            let Ok(()) = points.push(step.id) else {
                return Err(NoMemory);
            };
        }
    }
    Ok(points)
}

/// The names of those steps at which an RMA update with these done points is visible to the owner of the memory.
pub(crate) fn taken_in_among(
    alloc: Global,
    script: &Script,
    clocks: &Clocks,
    done: &[Id],
    access: &KeptAccess,
    steps: &[KeptStep],
) -> Result<Items<Id>, NoMemory>
    ensures { IfOk result (λ points. points ≡
        names_passing (is_taken_in_of script.now (before_in clocks.now) done.now access.now) steps.now) }
{
    let mut points = Items::new(alloc);
    for step in steps {
        if is_taken_in(script, clocks, done, access, step) {
            let Ok(()) = points.push(step.id) else {
                return Err(NoMemory);
            };
        }
    }
    Ok(points)
}

/// The names of those steps from which on RMA accesses see a store.
pub(crate) fn given_out_among(
    alloc: Global,
    script: &Script,
    access: &KeptAccess,
    steps: &[KeptStep],
) -> Result<Items<Id>, NoMemory>
    ensures { IfOk result (λ points. points ≡
        names_passing (is_later_sought_of script.now GivingOut access.now) steps.now) }
{
    let mut points = Items::new(alloc);
    for step in steps {
        if is_later_sought(script, Sought::GivingOut, access, step) {
            let Ok(()) = points.push(step.id) else {
                return Err(NoMemory);
            };
        }
    }
    Ok(points)
}
