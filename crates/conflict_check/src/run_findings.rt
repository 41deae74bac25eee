//! The findings of a lawful run.
ghost use Rattle.std.specs.Prelude.{◌≡◌, ◌<◌, ◌∷◌, ◌++◌, [], IfOk, length, map, OnOk, take};
ghost use Rattle.rma_types.specs.declared.schedules.Delay.TheVariants.{Seeded};
ghost use Rattle.call_rules.specs.WellFormed.{IsWellFormed};
ghost use Rattle.lawful_runs.specs.LawfulRun.{IsLawful};
ghost use Rattle.std.specs.Option.{option_map_or};
ghost use Rattle.rma_types.specs.declared.findings.Finding.{Finding as FindingValue};
ghost use Rattle.order_rules.specs.Before.{IsOrder};
ghost use Rattle.order_rules.specs.Findings.{findings as findings_of, findings_after, first_finding};
ghost use Rattle.rank_records.specs.Kept.{IsRecorded};
ghost use Rattle.vector_clocks.specs.Marks.{before_in};
ghost use Rattle.first_points.specs.Alike.{judged_by};
ghost use Rattle.access_index.specs.Indexes.{HasAccesses};
ghost use Rattle.access_sweeps.specs.Places.{ArePartners, judged_at};
ghost use Rattle.conflict_check.specs.Listings.{AreLeast, IsAscending, judged_of, rows_of};

use crate::judged::Judged;
use crate::partners::least_partners;
use access_index::AccessIndex;
use first_points::{JudgedPoints, judged_points};
use order_laws::findings_of_a_run;
use rank_records::{RunRecord, records_of};
use rma_record::Run;
use rma_rules::forbidden_kind;
use rma_types::{Finding, Items, Model, NoMemory, Script};
use std::alloc::Global;
use vector_clocks::Clocks;

/// The accesses by the regions that they reach.
fn index_of(alloc: Global, accesses: &[JudgedPoints]) -> Result<AccessIndex, NoMemory>
    ensures { IfOk result (λ index. HasAccesses index (rows_of (map judged_by accesses.now))) }
{
    let mut index = AccessIndex::new(alloc);
    for a in accesses {
        index.see(a.id.rank, &a.access)?;
    }
    Ok(index)
}

/// The forbidden pair of the access at a place with its least partner.
fn finding_at(s: &Judged<'_>, best: &[usize], at: usize) -> Option<Finding>
    requires there { at < length s.now.accesses.now }
    requires long { length best.now ≡ length s.now.accesses.now }
    requires partners { ArePartners s.now.model (before_in s.now.clocks.now)
        (judged_of s.now) best.now }
    requires least { AreLeast s.now best.now }
    ensures { result ≡ first_finding s.now.model (before_in s.now.clocks.now)
        (take at (judged_of s.now))
        (judged_at (judged_of s.now) at) }
{
    let partner = best[at];
    if partner >= at {
        return None;
    }
    let (a, b) = (&s.accesses[partner], &s.accesses[at]);
    match forbidden_kind(&a.access, a.id.rank, &b.access, b.id.rank, s.model) {
        Some(rule) => Some(Finding {
            first: a.id,
            second: b.id,
            rule,
        }),
        None => None,
    }
}

fn push_finding(found: &mut Items<Finding>, finding: Option<Finding>) -> Result<(), NoMemory>
    ensures { OnOk result (found.new ≡ found.old ++
        option_map_or (λ (f : FindingValue). f ∷ []) finding []) }
{
    match finding {
        Some(finding) => match found.push(finding) {
            Ok(()) => Ok(()),
            Err(_) => Err(NoMemory),
        },
        None => Ok(()),
    }
}

/// The findings of accesses that stand in the order of their names, from tables that have them.
fn findings_with(
    alloc: Global,
    s: &Judged<'_>,
    index: &AccessIndex,
) -> Result<Items<Finding>, NoMemory>
    requires ascending { IsAscending (judged_of s.now) }
    requires index { HasAccesses index.now (rows_of (judged_of s.now)) }
    ensures { IfOk result (λ found.
        found ≡ findings_after s.now.model (before_in s.now.clocks.now) [] (judged_of s.now)) }
{
    let best = least_partners(alloc, s, index)?;
    let mut found: Items<Finding> = Items::new(alloc);
    for at in 0..s.accesses.len() {
        push_finding(&mut found, finding_at(s, best.as_slice(), at))?;
    }
    Ok(found)
}

/// The findings of a lawful run by its clocks and by what is kept of its logs.
///
/// No pair of accesses is asked by itself. The accesses are put into tables by the blocks of four bytes that they
/// reach, and two lists of a block are swept: each is gone through once. So the time is of the order of the bytes
/// that accesses reach, times the number of lists of a block, which the number of ranks bounds.
pub(crate) fn findings_by(
    alloc: Global,
    recorded: &RunRecord,
    clocks: &Clocks,
    model: Model,
) -> Result<Items<Finding>, NoMemory>
    requires recorded { IsRecorded recorded.now }
    requires order { IsOrder recorded.now.script.now recorded.now.run.now (before_in clocks.now) }
    ensures { IfOk result (λ found. found ≡
        findings_of recorded.now.script.now recorded.now.run.now model (before_in clocks.now)) }
{
    findings_of_a_run();
    let points = judged_points(alloc, recorded, clocks, model)?;
    let accesses = points.as_slice();
    let index = index_of(alloc, accesses)?;
    let judged = Judged {
        clocks,
        accesses,
        model,
    };
    findings_with(alloc, &judged, &index)
}

/// The findings of a lawful run by its clocks: for each access, in the order of their names, the forbidden pair
/// with the least partner of a smaller name (after MPI 3.1, section 11.7, rules S1 to S3).
pub fn findings(
    alloc: Global,
    script: &Script,
    run: &Run,
    clocks: &Clocks,
    model: Model,
) -> Result<Items<Finding>, NoMemory>
    requires formed { IsWellFormed script.now }
    requires lawful { IsLawful script.now Seeded run.now }
    requires order { IsOrder script.now run.now (before_in clocks.now) }
    ensures { IfOk result (λ found. found ≡ findings_of script.now run.now model
        (before_in clocks.now)) }
{
    let recorded = records_of(alloc, script, run)?;
    findings_by(alloc, &recorded, clocks, model)
}
