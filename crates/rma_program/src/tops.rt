//! The top calls.
ghost use Rattle.std.specs.Prelude.{◌≡◌, ◌≢◌, ◌≤◌, ◌<◌, ◌-◌, ◌^◌, ◌⊎◌, ℕ, List, None, Some, IfSome, map};
ghost use Rattle.std.specs.String.{string_bytes};
ghost use Rattle.call_rules.specs.WellFormed.{IsWellFormed};
ghost use Rattle.rma_types.specs.declared.scripts.Script.{Script as ScriptValue};
ghost use Rattle.rma_types.specs.declared.schedules.Delay.TheVariants.{Seeded};
ghost use Rattle.lawful_runs.specs.LawfulRun.{IsLawful};
ghost use Rattle.order_rules.specs.OrderedReads.{TouchesAgree};
ghost use Rattle.run_texts.specs.declared.modes.Mode.TheVariants.{Step as StepMode};
ghost use Rattle.rma_streams.specs.Ends.{NoLateRead};
ghost use Rattle.rma_streams.specs.Faults.{Rose};
ghost use Rattle.rma_streams.specs.Moves.{Wrote, WrotePrefix};
ghost use Rattle.script_language.specs.Reading.{Reads};
ghost use Rattle.rma_program.specs.Answers.{IsNoText, Refused, RefusedInPart, Reported, ReportedInPart};
ghost use Rattle.rma_program.specs.Headline.{CallsAreRefusedByClass, OfScript, PrintsFindings, ReadsAreOrdered};
ghost use Rattle.rma_program.specs.Headline.{RefusalsOfRunChangeNothing, TouchesReadStates, UpdatesStandOnce};
ghost use Rattle.rma_program.specs.Lines.{usage_line};
ghost use Rattle.rma_program.specs.Statuses.{IsRunStatus, IsStepStatus};
ghost use Rattle.rma_program.specs.Tops.{EndsFault, EndsJudged, EndsRun, EndsScript, EndsUsage, StepEnds};
ghost use Rattle.rma_program.specs.Words.{AreNoOptions, AreOptions, StandFor};

use crate::inputs::{NoScript, read_script};
use crate::outcomes::{
    OUT_OF_MEMORY, Outcome, READ_FAILED, SCRIPT_REFUSED, WORDS_REFUSED, WRITE_FAILED,
};
use crate::outputs::{NoText, write_fault, write_report, write_usage};
use command_words::{Options, WordsFault, read_words};
use conflict_check::judge;
use order_laws::order_of_a_run;
use rank_runners::run_steps;
use refusal_laws::refused_calls_change_nothing;
use rma_record::Run;
use rma_streams::{Sink, Source};
use rma_types::{Finding, Gate, NoMemory, Script};
use run_report::status_of;
use script_reader::Fault;
use std::alloc::Global;

/// Writes the line of a refused script.
fn refuse_script<K: Sink>(alloc: Global, fault: Fault, sink: &mut K) -> Outcome
    ensures ends { EndsFault fault (K.written sink.old) (K.written sink.new) result }
    ensures failed { result.status ≡ WRITE_FAILED → Rose (K.faults sink.old) (K.faults sink.new) }
    ensures no_fault { result.status ≢ WRITE_FAILED → K.faults sink.new ≡ K.faults sink.old }
    ensures never_falls { K.faults sink.old ≤ K.faults sink.new }
{
    match write_fault(alloc, fault, sink) {
        Ok(()) => Outcome::without_run(SCRIPT_REFUSED),
        Err(NoText::Failed) => Outcome::without_run(WRITE_FAILED),
        Err(NoText::NoMemory) => Outcome::without_run(OUT_OF_MEMORY),
    }
}

/// Reports on a run and its findings, and hands the run back.
fn report_run<K: Sink>(
    alloc: Global,
    script: &Script,
    run: Run,
    found: &[Finding],
    sink: &mut K,
) -> Outcome
    requires well_formed { IsWellFormed script.now }
    ensures ends { EndsRun script.now run found.now (K.written sink.old)
        (K.written sink.new) result }
    ensures failed { result.status ≡ WRITE_FAILED → Rose (K.faults sink.old) (K.faults sink.new) }
    ensures no_fault { result.status ≢ WRITE_FAILED → K.faults sink.new ≡ K.faults sink.old }
    ensures never_falls { K.faults sink.old ≤ K.faults sink.new }
{
    match write_report(alloc, script, &run, found, sink) {
        Ok(()) => Outcome {
            status: status_of(&run, found),
            run: Some(run),
        },
        Err(NoText::Failed) => Outcome {
            status: WRITE_FAILED,
            run: Some(run),
        },
        Err(NoText::NoMemory) => Outcome::without_run(OUT_OF_MEMORY),
    }
}

/// Judges a lawful run, and reports on it and its findings.
fn judge_run<K: Sink>(alloc: Global, script: &Script, run: Run, sink: &mut K) -> Outcome
    requires well_formed { IsWellFormed script.now }
    requires lawful { IsLawful script.now Seeded run }
    requires agrees { TouchesAgree script.now run }
    ensures ends { EndsJudged script.now run (K.written sink.old) (K.written sink.new) result }
    ensures failed { result.status ≡ WRITE_FAILED → Rose (K.faults sink.old) (K.faults sink.new) }
    ensures no_fault { result.status ≢ WRITE_FAILED → K.faults sink.new ≡ K.faults sink.old }
    ensures never_falls { K.faults sink.old ≤ K.faults sink.new }
{
    match judge(alloc, script, &run) {
        Ok(found) => report_run(alloc, script, run, found.as_slice(), sink),
        Err(NoMemory) => Outcome::without_run(OUT_OF_MEMORY),
    }
}

/// Runs a script by the options, and judges and reports on the run.
fn run_script<K: Sink>(alloc: Global, options: &Options, script: &Script, sink: &mut K) -> Outcome
    requires well_formed { IsWellFormed script.now }
    ensures ends { EndsScript options.now script.now (K.written sink.old)
        (K.written sink.new) result }
    ensures failed { result.status ≡ WRITE_FAILED → Rose (K.faults sink.old) (K.faults sink.new) }
    ensures no_fault { result.status ≢ WRITE_FAILED → K.faults sink.new ≡ K.faults sink.old }
    ensures never_falls { K.faults sink.old ≤ K.faults sink.new }
{
    order_of_a_run();
    match run_steps(alloc, script, options.order, options.delay, options.seed) {
        Ok(run) => judge_run(alloc, script, run, sink),
        Err(NoMemory) => Outcome::without_run(OUT_OF_MEMORY),
    }
}

/// Reads a script from a source, runs it, and reports on the run.
fn answer<S: Source, K: Sink>(
    alloc: Global,
    options: &Options,
    source: &mut S,
    sink: &mut K,
) -> Outcome
    ensures ends { StepEnds options.now (S.left source.old) (S.left source.new)
        (K.written sink.old) (K.written sink.new) result }
    ensures read_failed { result.status ≡ READ_FAILED →
        Rose (S.faults source.old) (S.faults source.new) }
    ensures no_read_fault { result.status ≢ READ_FAILED →
        S.faults source.new ≡ S.faults source.old }
    ensures write_failed { result.status ≡ WRITE_FAILED →
        Rose (K.faults sink.old) (K.faults sink.new) }
    ensures no_write_fault { result.status ≢ WRITE_FAILED → K.faults sink.new ≡ K.faults sink.old }
    ensures source_count { S.faults source.old ≤ S.faults source.new }
    ensures no_late_read { NoLateRead (S.end source.old) (S.end source.new) }
    ensures sink_count { K.faults sink.old ≤ K.faults sink.new }
{
    match read_script(alloc, source) {
        Ok(script) => run_script(alloc, options, &script, sink),
        Err(NoScript::Refused(fault)) => refuse_script(alloc, fault, sink),
        Err(NoScript::Failed) => Outcome::without_run(READ_FAILED),
        Err(NoScript::NoMemory) => Outcome::without_run(OUT_OF_MEMORY),
    }
}

/// Reads a script from a source, runs it on one thread, judges the run, and writes the report on it and its findings to
/// a sink.
///
/// It waits for nobody and returns. The status is that of the run, or 3 where the script is refused, 4 where a read
/// failed, 5 where a write failed and 6 where memory ran out. The rules of the run are those of MPI 3.1, sections 11.2
/// to 11.7, in this project's profile.
pub fn step_main<S: Source, K: Sink>(
    alloc: Global,
    options: &Options,
    source: &mut S,
    sink: &mut K,
) -> Outcome
    requires step { options.now.mode ≡ StepMode }
    requires source_count { S.faults source.old < 2 ^ 64 - 1 }
    requires sink_count { K.faults sink.old < 2 ^ 64 - 1 }

    // The whole input says a script; its run on one thread is handed back, which is lawful, and the report on it and
    // its findings was written.
    ensures reported { IsRunStatus result.status
        → Reported options.now (S.left source.old) (S.left source.new)
        (K.written sink.old) (K.written sink.new) result.status result.run }
    // A run is handed back only with the status of a run, or where a write failed.
    ensures handed { IfSome result.run (λ _. IsRunStatus result.status ⊎
        (result.status ≡ WRITE_FAILED)) }

    // Of the run that is handed back: each recorded update stands once in its cell's one history.
    ensures updates_stand_once { IfSome result.run
        (OfScript options.now (S.left source.old) (S.left source.new) UpdatesStandOnce) }
    // Every touch reads the state at its place.
    ensures touches_read_states { IfSome result.run
        (OfScript options.now (S.left source.old) (S.left source.new) TouchesReadStates) }
    // A call is refused exactly by its named class.
    ensures refused_by_class { IfSome result.run
        (OfScript options.now (S.left source.old) (S.left source.new)
        (CallsAreRefusedByClass options.now.delay)) }
    // A refused call changes nothing.
    ensures refusals_change_nothing { IfSome result.run
        (OfScript options.now (S.left source.old) (S.left source.new)
        (RefusalsOfRunChangeNothing options.now.delay)) }
    // A finding is printed exactly where rules S1 to S3 forbid a pair of accesses that no recorded synchronisation
    // orders.
    ensures findings_printed { IfSome result.run
        (OfScript options.now (S.left source.old) (S.left source.new)
        (PrintsFindings (K.written sink.old) (K.written sink.new))) }
    // Without findings, every get and load gives what the updates ordered before it left.
    ensures reads_ordered { IfSome result.run
        (OfScript options.now (S.left source.old) (S.left source.new) ReadsAreOrdered) }

    // The bytes taken are refused by their first fault.
    ensures refused { result.status ≡ SCRIPT_REFUSED
        → Refused (S.left source.old) (S.left source.new) (K.written sink.old) (K.written sink.new) result.run }
    // A read failed, and nothing was written.
    ensures unread { result.status ≡ READ_FAILED → (K.written sink.new ≡ K.written sink.old) ×
        (result.run ≡ None) }
    // A write failed, after a front of the text.
    ensures cut { result.status ≡ WRITE_FAILED
        → ReportedInPart options.now (S.left source.old) (S.left source.new)
        (K.written sink.old) (K.written sink.new) result.run
        ⊎ RefusedInPart (S.left source.old) (S.left source.new) (K.written sink.old) (K.written sink.new) result.run }
    ensures no_memory { result.status ≡ OUT_OF_MEMORY → (K.written sink.new ≡ K.written sink.old) ×
        (result.run ≡ None) }
    ensures statuses { IsStepStatus result.status }

    // The counts of faults rise exactly where the status says so.
    ensures read_fault { result.status ≡ READ_FAILED → S.faults source.old < S.faults source.new }
    ensures no_read_fault { result.status ≢ READ_FAILED →
        S.faults source.new ≡ S.faults source.old }
    ensures write_fault { result.status ≡ WRITE_FAILED → K.faults sink.old < K.faults sink.new }
    ensures no_write_fault { result.status ≢ WRITE_FAILED → K.faults sink.new ≡ K.faults sink.old }

    // Where the end of the input is told, reading is over.
    ensures no_late_read { NoLateRead (S.end source.old) (S.end source.new) }

    // Without faults a script's text is reported on, and any other is refused, unless memory runs out.
    ensures complete { (text : List ℕ) (script : ScriptValue) → Reads text script →
        S.left source.old ≡ Some text
        → S.faults source.new ≡ S.faults source.old → K.faults sink.new ≡ K.faults sink.old
        → IsRunStatus result.status ⊎ (result.status ≡ OUT_OF_MEMORY) }
    ensures refuses { (text : List ℕ) → IsNoText text → S.left source.old ≡ Some text
        → S.faults source.new ≡ S.faults source.old → K.faults sink.new ≡ K.faults sink.old
        → (result.status ≡ SCRIPT_REFUSED) ⊎ (result.status ≡ OUT_OF_MEMORY) }
{
    refused_calls_change_nothing();
    answer(alloc, options, source, sink)
}

/// Writes the line of words that are refused.
pub fn refuse_words<K: Sink>(sink: &mut K) -> Outcome
    ensures ends { EndsUsage (K.written sink.old) (K.written sink.new) result }
    ensures failed { result.status ≡ WRITE_FAILED → Rose (K.faults sink.old) (K.faults sink.new) }
    ensures no_fault { result.status ≢ WRITE_FAILED → K.faults sink.new ≡ K.faults sink.old }
{
    match write_usage(sink) {
        Ok(()) => Outcome::without_run(WORDS_REFUSED),
        Err(NoText::Failed) => Outcome::without_run(WRITE_FAILED),
        Err(NoText::NoMemory) => Outcome::without_run(OUT_OF_MEMORY),
    }
}

/// The program: runs the script of a source by the words of the command line, and writes to a sink.
///
/// The gate is not passed: the script is run on one thread. The status is 2 where the words are refused, and then the
/// source is untouched; else it is that of `step_main`.
pub fn rma_main<S: Source, K: Sink, G: Gate>(
    alloc: Global,
    words: &[String],
    source: &mut S,
    sink: &mut K,
    _gate: &G,
) -> Outcome
    requires source_count { S.faults source.old < 2 ^ 64 - 1 }
    requires sink_count { K.faults sink.old < 2 ^ 64 - 1 }

    // The whole input says a script; its run by the options that the words stand for is handed back, which is lawful,
    // and its report was written.
    ensures reported { IsRunStatus result.status → StandFor (map string_bytes words.now) (λ options.
        Reported options (S.left source.old) (S.left source.new)
        (K.written sink.old) (K.written sink.new) result.status result.run) }
    // A run is handed back only with the status of a run, or where a write failed.
    ensures handed { IfSome result.run (λ _. IsRunStatus result.status ⊎
        (result.status ≡ WRITE_FAILED)) }

    // Of the run that is handed back: each recorded update stands once in its cell's one history.
    ensures updates_stand_once { IfSome result.run
        (λ run. StandFor (map string_bytes words.now) (λ options.
        OfScript options (S.left source.old) (S.left source.new) UpdatesStandOnce run)) }
    // Every touch reads the state at its place.
    ensures touches_read_states { IfSome result.run
        (λ run. StandFor (map string_bytes words.now) (λ options.
        OfScript options (S.left source.old) (S.left source.new) TouchesReadStates run)) }
    // A call is refused exactly by its named class.
    ensures refused_by_class { IfSome result.run
        (λ run. StandFor (map string_bytes words.now) (λ options.
        OfScript options (S.left source.old) (S.left source.new) (CallsAreRefusedByClass options.delay) run)) }
    // A refused call changes nothing.
    ensures refusals_change_nothing { IfSome result.run
        (λ run. StandFor (map string_bytes words.now) (λ options.
        OfScript options (S.left source.old) (S.left source.new) (RefusalsOfRunChangeNothing options.delay) run)) }
    // A finding is printed exactly where rules S1 to S3 forbid a pair of accesses that no recorded synchronisation
    // orders.
    ensures findings_printed { IfSome result.run
        (λ run. StandFor (map string_bytes words.now) (λ options.
        OfScript options (S.left source.old) (S.left source.new)
        (PrintsFindings (K.written sink.old) (K.written sink.new)) run)) }
    // Without findings, every get and load gives what the updates ordered before it left.
    ensures reads_ordered { IfSome result.run (λ run.
        StandFor (map string_bytes words.now) (λ options.
        OfScript options (S.left source.old) (S.left source.new) ReadsAreOrdered run)) }

    // The words stand for no options, and the line for that was written.
    ensures usage { result.status ≡ WORDS_REFUSED → AreNoOptions (map string_bytes words.now)
        × Wrote (K.written sink.old) usage_line (K.written sink.new) × (result.run ≡ None) }
    ensures untouched { AreNoOptions (map string_bytes words.now) → source.new ≡ source.old }
    ensures words_refused { AreNoOptions (map string_bytes words.now)
        → (result.status ≡ WORDS_REFUSED) ⊎ ((result.status ≡ WRITE_FAILED) ⊎ (result.status ≡ OUT_OF_MEMORY)) }
    ensures words_accepted { AreOptions (map string_bytes words.now) → IsStepStatus result.status }

    // The bytes taken are refused by their first fault.
    ensures refused { result.status ≡ SCRIPT_REFUSED
        → Refused (S.left source.old) (S.left source.new) (K.written sink.old) (K.written sink.new) result.run }
    // A read failed, and nothing was written.
    ensures unread { result.status ≡ READ_FAILED → (K.written sink.new ≡ K.written sink.old) ×
        (result.run ≡ None) }
    // A write failed, after a front of the text.
    ensures cut { AreOptions (map string_bytes words.now) → result.status ≡ WRITE_FAILED
        → StandFor (map string_bytes words.now) (λ options. ReportedInPart options (S.left source.old)
        (S.left source.new)
        (K.written sink.old) (K.written sink.new) result.run)
        ⊎ RefusedInPart (S.left source.old) (S.left source.new) (K.written sink.old) (K.written sink.new) result.run }
    ensures usage_cut { AreNoOptions (map string_bytes words.now) → result.status ≡ WRITE_FAILED
        → WrotePrefix (K.written sink.old) usage_line (K.written sink.new) × (result.run ≡ None) }
    ensures no_memory { result.status ≡ OUT_OF_MEMORY → (K.written sink.new ≡ K.written sink.old) ×
        (result.run ≡ None) }

    // The counts of faults rise exactly where the status says so.
    ensures read_fault { result.status ≡ READ_FAILED → S.faults source.old < S.faults source.new }
    ensures no_read_fault { result.status ≢ READ_FAILED →
        S.faults source.new ≡ S.faults source.old }
    ensures write_fault { result.status ≡ WRITE_FAILED → K.faults sink.old < K.faults sink.new }
    ensures no_write_fault { result.status ≢ WRITE_FAILED → K.faults sink.new ≡ K.faults sink.old }

    // Where the end of the input is told, reading is over.
    ensures no_late_read { NoLateRead (S.end source.old) (S.end source.new) }

    // Where the words stand for options and without faults, a script's text is reported on, and any other is refused,
    // unless memory runs out.
    ensures complete { AreOptions (map string_bytes words.now)
        → (text : List ℕ) (script : ScriptValue) → Reads text script → S.left source.old ≡ Some text
        → S.faults source.new ≡ S.faults source.old → K.faults sink.new ≡ K.faults sink.old
        → IsRunStatus result.status ⊎ (result.status ≡ OUT_OF_MEMORY) }
    ensures refuses { AreOptions (map string_bytes words.now)
        → (text : List ℕ) → IsNoText text → S.left source.old ≡ Some text
        → S.faults source.new ≡ S.faults source.old → K.faults sink.new ≡ K.faults sink.old
        → (result.status ≡ SCRIPT_REFUSED) ⊎ (result.status ≡ OUT_OF_MEMORY) }
{
    match read_words(alloc, words) {
        Ok(options) => step_main(alloc, &options, source, sink),
        Err(WordsFault::Usage) => refuse_words(sink),
        Err(WordsFault::NoMemory) => Outcome::without_run(OUT_OF_MEMORY),
    }
}
