//! The replay of each log.

ghost use Rattle.std.specs.Prelude.{◌≡◌, IfOk};
ghost use Rattle.rma_types.specs.declared.schedules.Delay.TheVariants.{Seeded};
ghost use Rattle.call_rules.specs.WellFormed.{IsWellFormed};
ghost use Rattle.lawful_runs.specs.LawfulRun.{IsLawful};
ghost use Rattle.rank_records.specs.Kept.{IsRecorded};

use crate::kept::{RankRecord, RunRecord};
use crate::records::record_of;
use rma_record::Run;
use rma_types::{NoMemory, Script};
use std::alloc::Global;

/// The steps and the accesses of a lawful run by rank. What each rank knew is replayed once; it costs one pass over the
/// record.
pub fn records_of<'r>(
    alloc: Global,
    script: &'r Script,
    run: &'r Run,
) -> Result<RunRecord<'r>, NoMemory>
    requires formed { IsWellFormed script.now }
    requires lawful { IsLawful script.now Seeded run.now }
    ensures recorded { IfOk result (λ recorded. IsRecorded recorded) }
    ensures script { IfOk result (λ recorded. recorded.script.now ≡ script.now) }
    ensures run { IfOk result (λ recorded. recorded.run.now ≡ run.now) }
{
    let mut ranks: Vec<RankRecord> = Vec::new(alloc);
    for rank in 0..script.ranks {
        let record = record_of(alloc, script, run, rank)?;
        let Ok(()) = ranks.push(record) else {
            return Err(NoMemory);
        };
    }
    Ok(RunRecord { script, run, ranks })
}
