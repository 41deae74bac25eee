//! Texts to a sink.
ghost use Rattle.std.specs.Prelude.{◌≡◌, ◌≤◌, IfOk};
ghost use Rattle.std.specs.String.{string_bytes};
ghost use Rattle.rma_streams.specs.Faults.{Rose};
ghost use Rattle.call_rules.specs.WellFormed.{IsWellFormed};
ghost use Rattle.rma_program.specs.Answers.{report_on};
ghost use Rattle.rma_program.specs.Lines.{kind_text, fault_line, usage_line};
ghost use Rattle.rma_program.specs.Outputs.{WritesOrStops};

use rma_record::Run;
use rma_streams::{Sink, write_output};
use rma_types::{Finding, NoMemory, Script};
use run_report::report_text;
use run_texts::Mode;
use script_reader::{Fault, FaultKind};
use std::alloc::{AllocError, Global};
use std::fmt::Write;

/// The line of words that are refused.
const USAGE: &str =
    "usage: rma_runner [--mode M] [--order O] [--workers N] [--delay D] [--seed S]\n";

/// Why a text was not written whole.
#[derive(Clone, Copy, Debug, PartialEq, Eq)]
pub enum NoText {
    /// A write failed.
    Failed,
    /// There was no memory for the text.
    NoMemory,
}

/// The word of a fault's kind, in lower-case letters.
fn kind_word(kind: FaultKind) -> &'static str
    ensures { result.now ≡ kind_text kind }
{
    match kind {
        FaultKind::Word => "word",
        FaultKind::Number => "number",
        FaultKind::Datatype => "type",
        FaultKind::Op => "op",
        FaultKind::Name => "name",
        FaultKind::Shape => "shape",
        FaultKind::Limit => "limit",
        FaultKind::NoMemory => "memory",
    }
}

fn fault_text(alloc: Global, fault: Fault) -> Result<String, AllocError>
    ensures { IfOk result (λ text. string_bytes text ≡ fault_line fault) }
{
    let mut text = String::from_str(alloc, "script ")?;
    let line = fault.line;
    write!(text, "{line}")?;
    text.push_str(" ")?;
    text.push_str(kind_word(fault.kind))?;
    text.push_str("\n")?;
    Ok(text)
}

fn write_text<K: Sink>(sink: &mut K, text: &[u8]) -> Result<(), NoText>
    ensures text { WritesOrStops (K.written sink.old) (K.written sink.new) text.now result }
    ensures failed { result ≡ Err NoText.Failed → Rose (K.faults sink.old) (K.faults sink.new) }
    ensures no_fault { (result ≡ Err NoText.Failed → ⊥) → K.faults sink.new ≡ K.faults sink.old }
    ensures never_falls { K.faults sink.old ≤ K.faults sink.new }
{
    match write_output(sink, text) {
        Ok(()) => Ok(()),
        Err(_) => Err(NoText::Failed),
    }
}

/// Writes the line of words that are refused.
pub fn write_usage<K: Sink>(sink: &mut K) -> Result<(), NoText>
    ensures text { WritesOrStops (K.written sink.old) (K.written sink.new) usage_line result }
    ensures failed { result ≡ Err NoText.Failed → Rose (K.faults sink.old) (K.faults sink.new) }
    ensures no_fault { (result ≡ Err NoText.Failed → ⊥) → K.faults sink.new ≡ K.faults sink.old }
    ensures never_falls { K.faults sink.old ≤ K.faults sink.new }
{
    write_text(sink, USAGE.as_bytes())
}

/// Writes the line of a script that is refused.
pub fn write_fault<K: Sink>(alloc: Global, fault: Fault, sink: &mut K) -> Result<(), NoText>
    ensures text { WritesOrStops (K.written sink.old) (K.written sink.new)
        (fault_line fault) result }
    ensures failed { result ≡ Err NoText.Failed → Rose (K.faults sink.old) (K.faults sink.new) }
    ensures no_fault { (result ≡ Err NoText.Failed → ⊥) → K.faults sink.new ≡ K.faults sink.old }
    ensures never_falls { K.faults sink.old ≤ K.faults sink.new }
{
    match fault_text(alloc, fault) {
        Ok(text) => write_text(sink, text.as_bytes()),
        Err(_) => Err(NoText::NoMemory),
    }
}

/// Writes the report on a run of a script and its findings.
pub fn write_report<K: Sink>(
    alloc: Global,
    script: &Script,
    run: &Run,
    found: &[Finding],
    sink: &mut K,
) -> Result<(), NoText>
    requires well_formed { IsWellFormed script.now }
    ensures text { WritesOrStops (K.written sink.old) (K.written sink.new)
        (report_on script.now run.now found.now) result }
    ensures failed { result ≡ Err NoText.Failed → Rose (K.faults sink.old) (K.faults sink.new) }
    ensures no_fault { (result ≡ Err NoText.Failed → ⊥) → K.faults sink.new ≡ K.faults sink.old }
    ensures never_falls { K.faults sink.old ≤ K.faults sink.new }
{
    match report_text(alloc, script, run, found, Mode::Step) {
        Ok(text) => write_text(sink, text.as_slice()),
        Err(NoMemory) => Err(NoText::NoMemory),
    }
}
