//! The steps and the accesses of one rank.
ghost use Rattle.std.specs.Prelude.{◌≡◌, ◌<◌, ◌++◌, [], IfOk, IfSome, OnOk};
ghost use Rattle.std.specs.List.{AllByRecursion};
ghost use Rattle.rma_types.specs.declared.schedules.Delay.TheVariants.{Seeded};
ghost use Rattle.call_rules.specs.WellFormed.{IsWellFormed, IsWrittenCall};
ghost use Rattle.lawful_runs.specs.LawfulRun.{IsLawful};
ghost use Rattle.order_rules.specs.CallSteps.{step_by};
ghost use Rattle.rank_records.specs.Deeds.{IsWrittenDeed, deed_at as deed_at_number};
ghost use Rattle.rank_records.specs.Kept.{IsRecordOf};
ghost use Rattle.rank_records.specs.Records.{access_kept, ends_by, in_list, lesson_at, lesson_by, moved_at, place_by};
ghost use Rattle.rank_records.specs.Records.{step_kept};
ghost use Rattle.rank_records.specs.Records.{taught_by};
ghost use Rattle.rank_records.specs.declared.records.Lesson.{Lesson as LessonValue};

use crate::deeds::{Deed, deed_of};
use crate::kept::{KeptAccess, KeptStep, RankRecord};
use crate::logs::{calls_at, log_at};
use crate::tables::Known;
use rma_record::{Item, Run};
use rma_types::{Call, Id, Items, NoMemory, Script, Step};
use std::alloc::Global;

/// An accepted call: its number in its rank's list, and what it does.
#[derive(Clone, Copy, Debug)]
pub(crate) struct Lesson {
    call: u32,
    deed: Deed,
}

/// What the call of this number does, where there is one.
fn deed_at(calls: &[Call], number: u32) -> Option<Deed>
    requires { AllByRecursion IsWrittenCall calls.now }
    ensures value { result ≡ deed_at_number calls.now number }
    ensures written { IfSome result IsWrittenDeed }
{
    match calls.get(number as usize) {
        Some(call) => Some(deed_of(call)),
        None => None,
    }
}

/// Whether a step ends its call: an Arrive does not, nor does the look-up of an RMA call.
fn is_last(step: Step, deed: Deed) -> bool
    ensures { result ≡ ends_by step deed }
{
    match step {
        Step::Arrive => false,
        Step::Leave => true,
        Step::One => !deed.is_move(),
    }
}

/// The call of this number, where the step ends it.
fn call_ended(calls: &[Call], number: u32, step: Step) -> Option<Lesson>
    requires { AllByRecursion IsWrittenCall calls.now }
    ensures value { result ≡ lesson_at calls.now number step }
    ensures written { IfSome result (λ (one : LessonValue). IsWrittenDeed one.deed) }
{
    match deed_at(calls, number) {
        Some(deed) => {
            if is_last(step, deed) {
                Some(Lesson { call: number, deed })
            } else {
                None
            }
        }
        None => None,
    }
}

/// The accepted call that an item ends.
fn lesson_of(calls: &[Call], item: &Item) -> Option<Lesson>
    requires { AllByRecursion IsWrittenCall calls.now }
    ensures value { result ≡ lesson_by calls.now item.now }
    ensures written { IfSome result (λ (one : LessonValue). IsWrittenDeed one.deed) }
{
    match *item {
        Item::Issue { call, .. } => call_ended(calls, call, Step::Leave),
        Item::Null { call } => call_ended(calls, call, Step::Leave),
        Item::Touch { .. } => None,
        Item::Flush { call } => call_ended(calls, call, Step::Leave),
        Item::Request { call } => call_ended(calls, call, Step::Leave),
        Item::Entry { call, step, .. } => call_ended(calls, call, step),
        Item::Tested { .. } => None,
        Item::Refused { .. } => None,
        Item::Ended => None,
    }
}

/// The tables learn from an item.
fn learn(known: &mut Known, calls: &[Call], item: &Item) -> Result<(), NoMemory>
    requires { AllByRecursion IsWrittenCall calls.now }
    ensures { OnOk result (known.new ≡ taught_by known.old calls.now item.now) }
{
    match lesson_of(calls, item) {
        Some(lesson) => known.learn(lesson.call, lesson.deed),
        None => Ok(()),
    }
}

/// The call of which an item is a step, and which step.
fn numbered_step(item: &Item) -> Option<(u32, Step)>
    ensures { result ≡ step_by item.now }
{
    match *item {
        Item::Issue { .. } => None,
        Item::Null { .. } => None,
        Item::Touch { .. } => None,
        Item::Flush { call } => Some((call, Step::One)),
        Item::Request { call } => Some((call, Step::One)),
        Item::Entry { call, step, .. } => Some((call, step)),
        Item::Tested { .. } => None,
        Item::Refused { .. } => None,
        Item::Ended => None,
    }
}

/// The place of an item that is an entry of the board.
fn place_of(item: &Item) -> Option<u32>
    ensures { result ≡ place_by item.now }
{
    match *item {
        Item::Issue { .. } => None,
        Item::Null { .. } => None,
        Item::Touch { .. } => None,
        Item::Flush { .. } => None,
        Item::Request { .. } => None,
        Item::Entry { place, .. } => Some(place),
        Item::Tested { .. } => None,
        Item::Refused { .. } => None,
        Item::Ended => None,
    }
}

/// The step that an item is, with the window and the request that its rank knew before it.
fn step_of(known: &Known, calls: &[Call], id: Id, item: &Item) -> Option<KeptStep>
    requires { AllByRecursion IsWrittenCall calls.now }
    ensures { result ≡ step_kept known.now calls.now id item.now }
{
    match numbered_step(item) {
        Some((call, step)) => match deed_at(calls, call) {
            Some(deed) => Some(KeptStep {
                id,
                call,
                step,
                place: place_of(item),
                window: known.number(deed),
                maker: known.maker(deed),
            }),
            None => None,
        },
        None => None,
    }
}

/// The name of the window on which the call of this number moves data.
fn window_moved(calls: &[Call], number: u32) -> Option<u8>
    requires { AllByRecursion IsWrittenCall calls.now }
    ensures value { result ≡ moved_at calls.now number }
    ensures within { IfSome result (λ win. win < 32) }
{
    match deed_at(calls, number) {
        Some(deed) => deed.moved(),
        None => None,
    }
}

/// The access that an item issues, with the access epoch in which its rank was before it.
fn access_of(known: &Known, calls: &[Call], id: Id, item: &Item) -> Option<KeptAccess>
    requires { AllByRecursion IsWrittenCall calls.now }
    ensures { result ≡ access_kept known.now calls.now id item.now }
{
    match *item {
        Item::Issue { call, access } => match window_moved(calls, call) {
            Some(win) => Some(KeptAccess {
                id,
                call,
                access,
                epoch: known.epoch(win).kind(),
            }),
            None => None,
        },
        _ => None,
    }
}

fn push_step(steps: &mut Items<KeptStep>, step: Option<KeptStep>) -> Result<(), NoMemory>
    ensures { OnOk result (steps.new ≡ steps.old ++ in_list step) }
{
    if let Some(step) = step {
        if steps.push(step).is_err() {
            return Err(NoMemory);
        }
    }
    Ok(())
}

fn push_access(accesses: &mut Items<KeptAccess>, access: Option<KeptAccess>) -> Result<(), NoMemory>
    ensures { OnOk result (accesses.new ≡ accesses.old ++ in_list access) }
{
    if let Some(access) = access {
        if accesses.push(access).is_err() {
            return Err(NoMemory);
        }
    }
    Ok(())
}

/// The steps and the accesses of a rank, each with what the rank knew before it.
pub(crate) fn record_of(
    alloc: Global,
    script: &Script,
    run: &Run,
    rank: u8,
) -> Result<RankRecord, NoMemory>
    requires formed { IsWellFormed script.now }
    requires lawful { IsLawful script.now Seeded run.now }
    requires within { rank < script.now.ranks }
    ensures { IfOk result (IsRecordOf script.now run.now rank) }
{
    let calls = calls_at(script, rank);
    let items = log_at(run, rank);
    let mut known = Known::new();
    let mut steps: Items<KeptStep> = Items::new(alloc);
    let mut accesses: Items<KeptAccess> = Items::new(alloc);
    for at in 0..items.len() {
        let Ok(index) = u32::try_from(at) else {
            return Err(NoMemory);
        };
        let item = items[at];
        let id = Id { rank, index };
        push_step(&mut steps, step_of(&known, calls, id, &item))?;
        push_access(&mut accesses, access_of(&known, calls, id, &item))?;
        learn(&mut known, calls, &item)?;
    }
    Ok(RankRecord { steps, accesses })
}
