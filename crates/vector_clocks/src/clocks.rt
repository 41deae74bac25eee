//! The clocks of a lawful run.
ghost use Rattle.std.specs.Prelude.{IfOk};
ghost use Rattle.rma_types.specs.declared.schedules.Delay.TheVariants.{Seeded};
ghost use Rattle.call_rules.specs.WellFormed.{IsWellFormed};
ghost use Rattle.lawful_runs.specs.LawfulRun.{IsLawful};
ghost use Rattle.rank_records.specs.Kept.{IsRecorded};
ghost use Rattle.order_rules.specs.Before.{IsOrder};
ghost use Rattle.vector_clocks.specs.Marks.{before_in};

use crate::marks::Clocks;
use crate::places::entries_by_place;
use crate::replays::{no_marks, replay};
use entry_gains::GainsByPlace;
use rank_records::{RunRecord, records_of};
use rma_record::Run;
use rma_types::{NoMemory, Script};
use std::alloc::Global;

/// The clocks of a lawful run, which decide its order (MPI 3.1, section 11.7, in this project's profile): the
/// transitive and reflexive closure of the order of the logs and of the edges between entries. A run that is lawful
/// with any delay is lawful with drawn ones (`order_laws`).
///
/// Its logs are gone through once. Where what is kept of them is at hand, `clocks_by` goes by that.
pub fn clocks_of(alloc: Global, script: &Script, run: &Run) -> Result<Clocks, NoMemory>
    requires formed { IsWellFormed script.now }
    requires lawful { IsLawful script.now Seeded run.now }
    ensures order { IfOk result (λ clocks. IsOrder script.now run.now (before_in clocks)) }
{
    let recorded = records_of(alloc, script, run)?;
    clocks_by(alloc, &recorded)
}

/// The clocks of a lawful run by what is kept of its logs. Its entries are gone through once, in the order of their
/// places, and no call is copied.
///
/// By the layout of its lists it takes 68 bytes an entry, and 20 more while it runs, beside the slots of what is given;
/// a list may have twice the room that it needs.
pub fn clocks_by(alloc: Global, recorded: &RunRecord) -> Result<Clocks, NoMemory>
    requires recorded { IsRecorded recorded.now }
    ensures order { IfOk result (λ clocks. IsOrder recorded.now.script.now recorded.now.run.now (before_in clocks)) }
{
    let order = entries_by_place(alloc, recorded)?;
    let mut gains = GainsByPlace::new(alloc, recorded.script.ranks);
    let mut clocks = no_marks(alloc)?;
    replay(
        recorded,
        order.as_slice(),
        &mut gains,
        clocks.as_mut_slice(),
    )?;
    Ok(Clocks::from_lists(clocks))
}
