//! The entries of a run, in the order of their places.
ghost use Rattle.std.specs.Prelude.{◌≡◌, ◌<◌, length, map, min, replicate, slice_get, Some, IfOk};
ghost use Rattle.std.specs.List.{count_by};
ghost use Rattle.lawful_runs.specs.Logs.{calls_of, entries_of};
ghost use Rattle.rank_records.specs.Kept.{IsRecorded};
ghost use Rattle.vector_clocks.specs.Places.{count_kept, has_place, no_entry, placed_item, with_records};
ghost use Rattle.vector_clocks.specs.Places.{with_step, with_steps};

use rank_records::{KeptStep, RankRecord, RunRecord, calls_at};
use rma_types::{Call, Id, NoMemory, Script, Step};
use std::alloc::Global;

/// An entry of the board as it stands in a log: its name, the number of its call, its place and its step.
#[derive(Clone, Copy, Debug, PartialEq, Eq)]
pub struct Placed {
    pub id: Id,
    pub call: u32,
    pub place: u32,
    pub step: Step,
}

/// How many of the steps are entries.
fn count_placed(steps: &[KeptStep]) -> usize
    ensures { result ≡ count_by has_place steps.now }
{
    let mut count: usize = 0;
    for step in steps {
        if step.place.is_some() {
            count += 1;
        }
    }
    count
}

/// How many entries all ranks have; at most as many as the type can say.
fn count_all(records: &[RankRecord]) -> usize
    ensures { result ≡ min (count_kept records.now) 18446744073709551615 }
{
    let mut count: usize = 0;
    for record in records {
        count = count.saturating_add(count_placed(record.steps.as_slice()));
    }
    count
}

/// Puts the step at its place, where it is an entry.
fn put(list: &mut [Placed], step: &KeptStep)
    ensures { list.new ≡ with_step list.old step.now }
{
    if let Some(place) = step.place {
        let at = place as usize;
        if at < list.len() {
            list[at] = Placed {
                id: step.id,
                call: step.call,
                place,
                step: step.step,
            };
        }
    }
}

/// Puts the entries among the steps at their places.
fn put_steps(list: &mut [Placed], steps: &[KeptStep])
    ensures { list.new ≡ with_steps list.old steps.now }
{
    for step in steps {
        put(list, step);
    }
}

/// Puts the entries of all ranks at their places.
fn put_all(list: &mut [Placed], records: &[RankRecord])
    ensures { list.new ≡ with_records list.old records.now }
{
    for record in records {
        put_steps(list, record.steps.as_slice());
    }
}

/// The entries of all ranks, each at its place.
fn put_together(alloc: Global, records: &[RankRecord]) -> Result<Vec<Placed>, NoMemory>
    ensures { IfOk result (λ list. list.items ≡
        with_records (replicate (min (count_kept records.now) 18446744073709551615) no_entry) records.now) }
{
    let count = count_all(records);
    let none = Placed {
        id: Id { rank: 0, index: 0 },
        call: 0,
        place: 0,
        step: Step::Arrive,
    };
    let Ok(mut list) = Vec::from_elem(alloc, none, count) else {
        return Err(NoMemory);
    };
    put_all(list.as_mut_slice(), records);
    Ok(list)
}

/// The entries of a run, in the order of their places.
pub fn entries_by_place(alloc: Global, recorded: &RunRecord) -> Result<Vec<Placed>, NoMemory>
    requires { IsRecorded recorded.now }
    ensures { IfOk result (λ list. map placed_item list.items ≡ entries_of recorded.now.run.now) }
{
    let list = put_together(alloc, recorded.ranks.as_slice())?;
    Ok(list)
}

/// The call of this number of a rank.
pub fn call_at(script: &Script, rank: u8, number: u32) -> &Call
    requires { number < length (calls_of script.now rank) }
    ensures { slice_get (calls_of script.now rank) number ≡ Some result.now }
{
    let calls = calls_at(script, rank);
    &calls[number as usize]
}
