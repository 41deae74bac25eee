//! A script from a source.
ghost use Rattle.std.specs.Prelude.{◌≡◌, ◌≤◌, IfOk, IfErr};
ghost use Rattle.rma_streams.specs.Ends.{NoLateRead};
ghost use Rattle.rma_streams.specs.Faults.{Rose};
ghost use Rattle.call_rules.specs.WellFormed.{IsWellFormed};
ghost use Rattle.script_language.specs.Reading.{Reads};
ghost use Rattle.rma_program.specs.Answers.{ReadsAs};
ghost use Rattle.rma_program.specs.Inputs.{IsRefusal, IsWhy};

use rma_streams::{ReadError, Source, read_input};
use rma_types::Script;
use script_reader::{Fault, FaultKind, parse};
use std::alloc::Global;

/// Why no script was read.
#[derive(Clone, Copy, Debug, PartialEq, Eq)]
pub enum NoScript {
    /// A read failed.
    Failed,
    /// There was no memory.
    NoMemory,
    /// The text is refused for its first fault.
    Refused(Fault),
}

/// The script that a text says, or why it says none.
fn script_of(alloc: Global, text: &[u8]) -> Result<Script, NoScript>
    ensures read { IfOk result (λ script. Reads text.now script) }
    ensures well_formed { IfOk result IsWellFormed }
    ensures refused { IfErr result (IsRefusal text.now) }
{
    match parse(alloc, text) {
        Ok(script) => Ok(script),
        Err(fault) => match fault.kind {
            FaultKind::NoMemory => Err(NoScript::NoMemory),
            _ => Err(NoScript::Refused(fault)),
        },
    }
}

/// Reads a script from a source, to the end of its input or to the limit.
#[tactic(auto, using(crate::proofs::Texts::text_is_short))]
pub fn read_script<S: Source>(alloc: Global, source: &mut S) -> Result<Script, NoScript>
    ensures read { IfOk result (ReadsAs (S.left source.old) (S.left source.new)) }
    ensures well_formed { IfOk result IsWellFormed }
    ensures refused { IfErr result (λ why. IsWhy (S.left source.old) (S.left source.new) why) }
    ensures failed { result ≡ Err NoScript.Failed →
        Rose (S.faults source.old) (S.faults source.new) }
    ensures no_fault { (result ≡ Err NoScript.Failed → ⊥) →
        S.faults source.new ≡ S.faults source.old }
    ensures never_falls { S.faults source.old ≤ S.faults source.new }
    ensures no_late_read { NoLateRead (S.end source.old) (S.end source.new) }
{
    match read_input(alloc, source) {
        Ok(text) => script_of(alloc, text.as_slice()),
        Err(ReadError::Failed) => Err(NoScript::Failed),
        Err(ReadError::NoMemory) => Err(NoScript::NoMemory),
    }
}
