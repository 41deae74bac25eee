//! The accesses of a lawful run with points that stand for all.
ghost use Rattle.std.specs.Prelude.{map, IfOk};
ghost use Rattle.rank_records.specs.Kept.{IsRecorded};
ghost use Rattle.order_rules.specs.Before.{IsOrder};
ghost use Rattle.order_rules.specs.Findings.{judged_accesses};
ghost use Rattle.vector_clocks.specs.Marks.{before_in};
ghost use Rattle.first_points.specs.Alike.{AreAlike, judged_by, names_of};

use crate::accesses::JudgedPoints;
use crate::points::all_points;
use crate::step_searches::searches_of;
use first_point_laws::{arrivals_stand_for_leaves, completes_lead_to_first_waits};
use rank_records::RunRecord;
use rma_types::{Model, NoMemory};
use std::alloc::Global;
use vector_clocks::Clocks;

/// The accesses of a lawful run in the order of their names, each with points that stand for all of its done and
/// visible points (MPI 3.1, sections 11.3.5, 11.4, 11.5 and 11.7, in this project's profile).
///
/// It goes once over the steps of each rank for each of the eight things that an access can look for. A point is then found by binary searches among the steps that are looked for, some of which ask the
/// clocks. So for n items the time is of the order of n log² n at most, whatever the numbers of windows and of ranks.
pub fn judged_points(
    alloc: Global,
    recorded: &RunRecord,
    clocks: &Clocks,
    model: Model,
) -> Result<Vec<JudgedPoints>, NoMemory>
    requires recorded { IsRecorded recorded.now }
    requires order { IsOrder recorded.now.script.now recorded.now.run.now (before_in clocks.now) }
    ensures { IfOk result (λ list. AreAlike (before_in clocks.now)
        (names_of (map judged_by list.items)) (map judged_by list.items)
        (judged_accesses recorded.now.script.now recorded.now.run.now model (before_in clocks.now))) }
{
    arrivals_stand_for_leaves();
    completes_lead_to_first_waits();
    let searches = searches_of(alloc, recorded.script, recorded.ranks.as_slice())?;
    all_points(alloc, &searches, clocks, model)
}
