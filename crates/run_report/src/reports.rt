//! The whole report.
ghost use Rattle.std.specs.Prelude.{◌≡◌, ◌++◌, ◌<◌, ◌≤◌, ◌^◌, ℕ, length, sum_by, OnOk, IfOk};
ghost use Rattle.std.specs.List.{flat_map};
ghost use Rattle.std.specs.String.{string_bytes};
ghost use Rattle.call_rules.specs.Layout.{IsWithinLimits, layout as layout_of_script};
ghost use Rattle.call_rules.specs.Pieces.{numbers_from};
ghost use Rattle.lawful_runs.specs.Logs.{calls_of, log_of};
ghost use Rattle.run_texts.specs.Report.{call_lines, cells_at, first_line, full_report, memory_lines, report};
ghost use Rattle.run_texts.specs.Report.{summary_line, work_report};

use crate::calls::write_calls;
use crate::counts::{Counted, count_calls, count_items, total_of};
use crate::findings::write_findings;
use crate::memory::{cells_of, write_memory};
use crate::runs::{every_rank_ended, items_of};
use rma_record::Run;
use rma_types::{Call, Finding, Layout, NoMemory, Script};
use run_texts::Mode;
use script_layout::layout_of;
use std::alloc::{AllocError, Global};

/// The calls of a rank.
fn calls_in(script: &Script, rank: usize) -> &[Call]
    ensures { result.now ≡ calls_of script.now rank }
{
    match script.calls.get(rank) {
        Some(calls) => calls.as_slice(),
        None => &[],
    }
}

/// Writes how the run ended.
fn write_first(text: &mut String, run: &Run) -> Result<(), AllocError>
    ensures { OnOk result (string_bytes text.new ≡ string_bytes text.old ++ first_line run.now) }
{
    if every_rank_ended(run) {
        text.push_str("ended\n")
    } else {
        text.push_str("stuck\n")
    }
}

/// Writes the lines about the calls of all ranks.
fn write_all_calls(
    alloc: Global,
    text: &mut String,
    script: &Script,
    run: &Run,
) -> Result<(), AllocError>
    ensures { OnOk result
        (string_bytes text.new
        ≡ string_bytes text.old
        ++ flat_map (λ rank. call_lines rank (calls_of script.now rank) (log_of run.now rank))
        (numbers_from 0 script.now.ranks)) }
{
    let ranks = script.ranks;
    for rank in 0..ranks {
        write_calls(
            alloc,
            text,
            rank,
            calls_in(script, rank as usize),
            items_of(run, rank as usize),
        )?;
    }
    Ok(())
}

/// Writes the lines of the memory of all ranks.
fn write_all_memory(
    text: &mut String,
    layout: &Layout,
    memory: &[u32],
    ranks: u8,
) -> Result<(), AllocError>
    ensures { OnOk result
        (string_bytes text.new
        ≡ string_bytes text.old
        ++ flat_map (λ rank. memory_lines rank (cells_at layout.now memory.now rank)) (numbers_from 0 ranks)) }
{
    for rank in 0..ranks {
        write_memory(text, rank, cells_of(layout, memory, rank as usize))?;
    }
    Ok(())
}

/// Writes the counts of a run.
fn write_summary(text: &mut String, run: &Run, found: &[Finding]) -> Result<(), AllocError>
    ensures { OnOk result (string_bytes text.new ≡ string_bytes text.old ++
        summary_line run.now found.now) }
{
    let accesses = count_items(run, Counted::Accesses);
    let touches = count_items(run, Counted::Touches);
    let entries = count_items(run, Counted::Entries);
    let refused = count_items(run, Counted::Refusals);
    let findings = found.len();
    write!(text, "summary accesses {accesses} touches {touches}")?;
    write!(text, " entries {entries} refused {refused}")?;
    write!(text, " findings {findings}\n")?;
    Ok(())
}

/// Writes the one line of the built-in work.
fn write_work(
    text: &mut String,
    script: &Script,
    run: &Run,
    found: &[Finding],
) -> Result<(), AllocError>
    requires { IsWithinLimits script.now }
    ensures { OnOk result (string_bytes text.new ≡ string_bytes text.old ++
        work_report script.now run.now found.now) }
{
    let calls = count_calls(script);
    let accesses = count_items(run, Counted::Accesses);
    let touches = count_items(run, Counted::Touches);
    let findings = found.len();
    let total = total_of(run.memory.as_slice());
    write!(text, "work calls {calls} accesses {accesses}")?;
    write!(text, " touches {touches} findings {findings}")?;
    write!(text, " total {total}\n")?;
    Ok(())
}

/// Writes the report on a script's run.
fn write_full(
    alloc: Global,
    text: &mut String,
    layout: &Layout,
    script: &Script,
    run: &Run,
    found: &[Finding],
) -> Result<(), AllocError>
    requires layout { layout.now ≡ layout_of_script script.now }
    ensures { OnOk result (string_bytes text.new ≡ string_bytes text.old ++
        full_report script.now run.now found.now) }
{
    write_first(text, run)?;
    write_all_calls(alloc, text, script, run)?;
    write_all_memory(text, layout, run.memory.as_slice(), script.ranks)?;
    write_findings(text, run, found)?;
    write_summary(text, run, found)?;
    Ok(())
}

/// Writes the report of a mode.
#[tactic(auto, unfolding(run_texts::specs::Report::report))]
fn write_report(
    alloc: Global,
    text: &mut String,
    layout: &Layout,
    script: &Script,
    run: &Run,
    found: &[Finding],
    mode: Mode,
) -> Result<(), AllocError>
    requires layout { layout.now ≡ layout_of_script script.now }
    requires limits { IsWithinLimits script.now }
    ensures { OnOk result (string_bytes text.new ≡ string_bytes text.old ++
        report script.now run.now found.now mode) }
{
    match mode {
        Mode::Step => write_full(alloc, text, layout, script, run, found),
        Mode::Run => write_full(alloc, text, layout, script, run, found),
        Mode::Work => write_work(text, script, run, found),
    }
}

/// The report on a script's run and its findings.
///
/// It holds of any run: the items of each log are gathered by their calls, and the touches by their accesses, in one
/// pass through the log, which takes 8 bytes for each item and 4 for each call. `NoMemory` is answered too where a log
/// has more than 4,294,967,295 items.
pub fn report_text(
    alloc: Global,
    script: &Script,
    run: &Run,
    found: &[Finding],
    mode: Mode,
) -> Result<Vec<u8>, NoMemory>
    requires limits { IsWithinLimits script.now }
    ensures { IfOk result (λ text. text.items ≡ report script.now run.now found.now mode) }
{
    let layout = layout_of(alloc, script)?;
    let mut text = String::new(alloc);
    match write_report(alloc, &mut text, &layout, script, run, found, mode) {
        Ok(()) => Ok(text.into_bytes()),
        Err(_) => Err(NoMemory),
    }
}
