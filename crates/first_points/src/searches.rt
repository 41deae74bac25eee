//! The first step of a rank that is looked for.
ghost use Rattle.std.specs.Prelude.{◌≡◌, ◌≤◌, ◌&&◌, length, not, true, false, nat_le};
ghost use Rattle.std.specs.List.{find};
ghost use Rattle.std.specs.List.Sorted.{IsPartitionPoint};
ghost use Rattle.std.specs.Option.{option_copied};
ghost use Rattle.vector_clocks.specs.Marks.{before_in};
ghost use Rattle.rank_records.specs.declared.kept.KeptStep.{KeptStep as StepValue};
ghost use Rattle.first_points.specs.Alike.{reaches};
ghost use Rattle.first_points.specs.KeptPoints.{AreAscending, AllAscending, call_at as call_of_step, does as does_by};
ghost use Rattle.first_points.specs.KeptPoints.{ends_request as ends_request_of, first_after as after_of};
ghost use Rattle.first_points.specs.KeptPoints.{is_on_window as is_on, is_sought as is_sought_by, issued_as};
ghost use Rattle.first_points.specs.KeptPoints.{kept_steps};

use crate::accesses::do_reach;
use crate::calls::{
    arrives_at_fence, gives_out, is_complete, is_done_at_origin, is_done_at_target, is_wait,
    takes_in,
};
use rank_records::{KeptAccess, KeptStep, RankRecord};
use rma_types::{Call, Id, Script, Step};
use vector_clocks::Clocks;

/// What is looked for among the steps of a rank on the window of an access: the arrival at a fence, a complete, a wait,
/// what completes the access at its target or at its origin, and what takes in RMA updates or gives out stores.
#[derive(Clone, Copy, Debug, PartialEq, Eq)]
pub enum Sought {
    FenceArrival,
    Complete,
    Wait,
    AtTarget,
    AtOrigin,
    TakingIn,
    GivingOut,
}

/// The step of the call is what is looked for.
fn does(sought: Sought, access: &KeptAccess, step: Step, call: &Call) -> bool
    ensures { result ≡ does_by sought (issued_as access.now) step call.now }
{
    match sought {
        Sought::FenceArrival => arrives_at_fence(step, call),
        Sought::Complete => is_complete(call),
        Sought::Wait => is_wait(call),
        Sought::AtTarget => is_done_at_target(access, call),
        Sought::AtOrigin => is_done_at_origin(access, call),
        Sought::TakingIn => takes_in(step, call),
        Sought::GivingOut => gives_out(step, call),
    }
}

/// The call of a step.
pub(crate) fn call_of<'s>(script: &'s Script, step: &KeptStep) -> Option<&'s Call>
    ensures { option_copied result ≡ call_of_step script.now step.now }
{
    match script.calls.get(step.id.rank as usize) {
        Some(calls) => calls.get(step.call as usize),
        None => None,
    }
}

fn is_on_window(access: &KeptAccess, step: &KeptStep) -> bool
    ensures { result ≡ is_on access.now step.now }
{
    match step.window {
        Some(number) => number == access.access.window,
        None => false,
    }
}

/// The step is on the window of the access, and is what is looked for.
pub fn is_sought(script: &Script, sought: Sought, access: &KeptAccess, step: &KeptStep) -> bool
    ensures { result ≡ is_sought_by script.now sought access.now step.now }
{
    is_on_window(access, step)
        && match call_of(script, step) {
            Some(call) => does(sought, access, step.step, call),
            None => false,
        }
}

/// The step ends the request of the access.
pub fn ends_request(access: &KeptAccess, step: &KeptStep) -> bool
    ensures { result ≡ ends_request_of access.now step.now }
{
    match step.maker {
        Some(number) => number == access.call,
        None => false,
    }
}

/// The first of some steps that is what is looked for.
fn first_sought(
    script: &Script,
    steps: &[KeptStep],
    sought: Sought,
    access: &KeptAccess,
) -> Option<KeptStep>
    ensures { result ≡ find (is_sought_by script.now sought access.now) steps.now }
{
    for step in steps {
        if is_sought(script, sought, access, step) {
            return Some(*step);
        }
    }
    None
}

/// The steps of a rank.
fn steps_at<'r>(records: &'r [RankRecord], rank: u8) -> &'r [KeptStep]
    ensures { result.now ≡ kept_steps records.now rank }
{
    match records.get(rank as usize) {
        Some(record) => record.steps.as_slice(),
        None => &[],
    }
}

/// How many of the steps stand at or before an index.
pub(crate) fn steps_within(steps: &[KeptStep], index: u32) -> usize
    requires { AreAscending steps.now }
    ensures bound { result ≤ length steps.now }
    ensures point { IsPartitionPoint (λ (k : StepValue). nat_le k.id.index index ≡ true)
        (λ (k : StepValue). nat_le k.id.index index ≡ false) steps.now result }
{
    steps.partition_point(|step| step.id.index <= index)
}

/// How many of the steps none of the points is before.
pub(crate) fn steps_unreached(clocks: &Clocks, points: &[Id], steps: &[KeptStep]) -> usize
    requires { AreAscending steps.now }
    ensures bound { result ≤ length steps.now }
    ensures point { IsPartitionPoint
        (λ (k : StepValue). not (reaches (before_in clocks.now) points.now k.id) ≡ true)
        (λ (k : StepValue). not (reaches (before_in clocks.now) points.now k.id) ≡ false) steps.now result }
{
    steps.partition_point(|step| !do_reach(clocks, points, step.id))
}

/// The first step of the origin after the access that is what is looked for on its window.
pub fn first_after(
    script: &Script,
    records: &[RankRecord],
    sought: Sought,
    access: &KeptAccess,
) -> Option<KeptStep>
    requires { AllAscending records.now }
    ensures { result ≡ after_of script.now records.now sought access.now }
{
    let steps = steps_at(records, access.id.rank);
    let from = steps_within(steps, access.id.index);
    first_sought(script, &steps[from..], sought, access)
}
