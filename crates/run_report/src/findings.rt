//! The lines of the findings.
ghost use Rattle.std.specs.Prelude.{◌≡◌, ◌∷◌, ◌++◌, slice_get, OnOk};
ghost use Rattle.std.specs.List.{flat_map};
ghost use Rattle.std.specs.Option.{option_map_or};
ghost use Rattle.std.specs.String.{string_bytes};
ghost use Rattle.lawful_runs.specs.Logs.{log_of};
ghost use Rattle.run_texts.specs.Report.{rule_text, issued_call, access_name, finding_line};

use crate::runs::items_of;
use rma_record::{Item, Run};
use rma_types::{Finding, Id, Rule};
use std::alloc::AllocError;

/// The name of a rule.
fn rule_name(rule: Rule) -> &'static str
    ensures { result.now ≡ rule_text rule }
{
    match rule {
        Rule::S1 => "S1",
        Rule::S2 => "S2",
        Rule::S3 => "S3",
    }
}

/// The call that an `Issue` is of.
fn call_of(run: &Run, id: Id) -> u32
    ensures { result ≡ option_map_or issued_call (slice_get (log_of run.now id.rank) id.index) 0 }
{
    match items_of(run, id.rank as usize).get(id.index as usize) {
        Some(Item::Issue { call, .. }) => *call,
        _ => 0,
    }
}

/// Writes the name of an access behind a space.
fn write_access(text: &mut String, run: &Run, id: Id) -> Result<(), AllocError>
    ensures { OnOk result (string_bytes text.new ≡ string_bytes text.old ++
        32 ∷ access_name run.now id) }
{
    let rank = id.rank;
    let call = call_of(run, id);
    write!(text, " {rank}:{call}")
}

/// Writes the line of a finding.
fn write_finding(text: &mut String, run: &Run, finding: &Finding) -> Result<(), AllocError>
    ensures { OnOk result (string_bytes text.new ≡ string_bytes text.old ++
        finding_line run.now finding.now) }
{
    let rule = rule_name(finding.rule);
    write!(text, "finding {rule}")?;
    write_access(text, run, finding.first)?;
    write_access(text, run, finding.second)?;
    text.push_str("\n")?;
    Ok(())
}

/// Writes the lines of the findings.
pub(crate) fn write_findings(
    text: &mut String,
    run: &Run,
    found: &[Finding],
) -> Result<(), AllocError>
    ensures { OnOk result (string_bytes text.new ≡ string_bytes text.old ++
        flat_map (finding_line run.now) found.now) }
{
    for finding in found {
        write_finding(text, run, finding)?;
    }
    Ok(())
}
