//! The entries to which an edge leads from one entry. All entries of a run come one after the other, and that one alone
//! gives something: an edge leads to those that gain it.
ghost use Rattle.std.specs.Prelude.{◌≡◌, ◌<◌, ◌++◌, ℕ, List, [], ◌∷◌, map, length, IfOk, OnOk, if◌then◌else◌};
ghost use Rattle.std.specs.Option.{option_map};
ghost use Rattle.rma_types.specs.declared.schedules.Delay.TheVariants.{Seeded};
ghost use Rattle.call_rules.specs.WellFormed.{IsWellFormed, IsWrittenCall};
ghost use Rattle.kept_rows.specs.Gifts.{Given};
ghost use Rattle.entry_gains.specs.ByPlace.{IsComing, KeepsInOrder, front_of};
ghost use Rattle.lawful_runs.specs.LawfulRun.{IsLawful};
ghost use Rattle.lawful_runs.specs.Logs.{entries_of};
ghost use Rattle.order_rules.specs.Before.{events_in, is_same_id};
ghost use Rattle.rank_records.specs.Kept.{IsRecorded};
ghost use Rattle.vector_clocks.specs.Places.{placed_item};
ghost use Rattle.vector_clocks.specs.Rows.{row_placed};
ghost use Rattle.every_point.specs.Edges.{IsPut, Replayed, led_among, mark_of};

use cell_face::Front;
use entry_gains::GainsByPlace;
use rank_records::{RunRecord, records_of};
use rma_record::Run;
use rma_types::{Call, Id, Items, NoMemory, Script};
use std::alloc::Global;
use vector_clocks::{Placed, call_at, entries_by_place};

/// The two names are one.
pub(crate) fn is_same(a: Id, b: Id) -> bool
    ensures { result ≡ is_same_id a b }
{
    a.rank == b.rank && a.index == b.index
}

/// What an entry gives: something, where it is the one of this name, and else nothing.
fn mark_for(from: Id, id: Id) -> Option<Front>
    ensures { option_map front_of result ≡ mark_of from id }
{
    if is_same(id, from) {
        Some(Front { places: [0; 16] })
    } else {
        None
    }
}

/// The entry comes to the gains: whether it gains something.
fn enter(gains: &mut GainsByPlace, from: Id, one: Placed, call: &Call) -> Result<bool, NoMemory>
    requires written { IsWrittenCall call.now }
    requires rank { one.id.rank < 16 }
    ensures { IfOk result (λ does_gain. (ranks : ℕ) (entries : List Given) →
        IsComing ranks entries (row_placed one call.now) → KeepsInOrder ranks entries gains.old →
        IsPut ranks from one call.now entries does_gain gains.new) }
{
    let gift = mark_for(from, one.id);
    let gained = gains.enter(one.id.rank, call, one.step, gift)?;
    Ok(gained.is_some())
}

/// The name more, where its entry gains something.
fn put_name(led: &mut Items<Id>, id: Id, gains: bool) -> Result<(), NoMemory>
    ensures { OnOk result (led.new ≡ led.old ++ (if gains then id ∷ [] else [])) }
{
    if gains {
        if led.push(id).is_err() {
            return Err(NoMemory);
        }
    }
    Ok(())
}

/// All entries of a lawful run come to the gains, in the order of their places, and the names of those that gain
/// something to a list.
fn replay(
    recorded: &RunRecord,
    order: &[Placed],
    from: Id,
    gains: &mut GainsByPlace,
    led: &mut Items<Id>,
) -> Result<(), NoMemory>
    requires recorded { IsRecorded recorded.now }
    requires order { map placed_item order.now ≡ entries_of recorded.now.run.now }
    requires first { Replayed recorded.now.script.now recorded.now.run.now from 0 gains.old led.old }
    ensures { OnOk result (Replayed recorded.now.script.now recorded.now.run.now from
        (length order.now) gains.new led.new) }
{
    for at in 0..order.len() {
        let one = order[at];
        let call = call_at(recorded.script, one.id.rank, one.call);
        let does_gain = enter(gains, from, one, call)?;
        put_name(led, one.id, does_gain)?;
    }
    Ok(())
}

/// The names of the entries to which an edge leads from the entry of this name, by what is kept of a lawful run.
pub(crate) fn led_by(alloc: Global, recorded: &RunRecord, from: Id) -> Result<Items<Id>, NoMemory>
    requires { IsRecorded recorded.now }
    ensures { IfOk result (λ led. led ≡
        led_among (events_in recorded.now.script.now recorded.now.run.now) from
        (events_in recorded.now.script.now recorded.now.run.now)) }
{
    let order = entries_by_place(alloc, recorded)?;
    let mut gains = GainsByPlace::new(alloc, recorded.script.ranks);
    let mut led = Items::new(alloc);
    replay(recorded, order.as_slice(), from, &mut gains, &mut led)?;
    Ok(led)
}

/// The names of the entries of a lawful run to which an edge leads from the entry of this name, in the order of their
/// places (MPI 3.1, section 11.7, in this project's profile of order).
pub fn led_from(alloc: Global, script: &Script, run: &Run, from: Id) -> Result<Items<Id>, NoMemory>
    requires formed { IsWellFormed script.now }
    requires lawful { IsLawful script.now Seeded run.now }
    ensures { IfOk result (λ led. led ≡
        led_among (events_in script.now run.now) from (events_in script.now run.now)) }
{
    let recorded = records_of(alloc, script, run)?;
    led_by(alloc, &recorded, from)
}
