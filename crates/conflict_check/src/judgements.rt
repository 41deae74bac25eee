//! The judgement on a lawful run: which of its accesses form forbidden pairs, and what follows where none do (MPI 3.1,
//! section 11.7, in this project's profile).
ghost use Rattle.std.specs.Prelude.{IfOk};
ghost use Rattle.rma_types.specs.declared.findings.Model.TheVariants.{Separate};
ghost use Rattle.rma_types.specs.declared.schedules.Delay.TheVariants.{Seeded};
ghost use Rattle.call_rules.specs.WellFormed.{IsWellFormed};
ghost use Rattle.lawful_runs.specs.LawfulRun.{IsLawful};
ghost use Rattle.order_rules.specs.Findings.{AreFindings};
ghost use Rattle.order_rules.specs.OrderedReads.{TouchesAgree};
ghost use Rattle.conflict_check.specs.Judgements.{AreReadsOrderedIfNone};

use crate::run_findings::findings_by;
use rank_records::records_of;
use read_laws::reads_are_ordered;
use rma_record::Run;
use rma_types::{Finding, Items, Model, NoMemory, Script};
use std::alloc::Global;
use vector_clocks::clocks_by;

/// The findings of a lawful run whose touches keep its order, in the separate model of memory: for each access, in the
/// order of their names, the forbidden pair with the least partner of a smaller name (MPI 3.1, section 11.7, rules S1
/// to S3, in this project's profile).
///
/// Each log is gone through once. A run that is lawful with any delay is lawful with drawn ones (`order_laws`).
pub fn judge(alloc: Global, script: &Script, run: &Run) -> Result<Items<Finding>, NoMemory>
    requires formed { IsWellFormed script.now }
    requires lawful { IsLawful script.now Seeded run.now }
    requires agrees { TouchesAgree script.now run.now }
    // They are exactly the findings of the run.
    ensures found { IfOk result (AreFindings script.now run.now Separate) }
    // Without findings each get and each load reads what the updates that are ordered before it leave.
    ensures reads { IfOk result (AreReadsOrderedIfNone script.now run.now) }
{
    reads_are_ordered();
    let recorded = records_of(alloc, script, run)?;
    let clocks = clocks_by(alloc, &recorded)?;
    findings_by(alloc, &recorded, &clocks, Model::Separate)
}
