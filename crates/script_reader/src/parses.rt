//! Parsing.
ghost use Rattle.std.specs.Prelude.{◌≡◌, ◌≤◌, length, IfOk, IfErr, MatchResult};
ghost use Rattle.rma_types.specs.declared.scripts.Script.{Script};
ghost use Rattle.call_rules.specs.WellFormed.{IsWellFormed};
ghost use Rattle.script_language.specs.Lines.{lines_of};
ghost use Rattle.script_language.specs.Reading.{Reads, text_read};
ghost use Rattle.script_reader.specs.Parsing.{Stops, IsFaultOf, memory_fault, fault_of};

use crate::errors::ReadError;
use crate::lexing::split_line;
use crate::readers::Reader;
use rma_types::Script;
use script_language::{Fault, FaultKind};
use std::alloc::Global;

/// The most bytes of a text.
const MOST_BYTES: usize = 1_048_576;

/// Why the reading of a text stopped, and in which line.
#[derive(Clone, Copy, Debug, PartialEq, Eq)]
pub struct Stop {
    line: u32,
    error: ReadError,
}

/// The fault of a text whose reading stopped.
fn fault(stop: Stop) -> Fault
    ensures { result ≡ fault_of stop }
{
    match stop.error {
        ReadError::Memory => Fault {
            line: 0,
            kind: FaultKind::NoMemory,
        },
        ReadError::Refused(kind) => Fault {
            line: stop.line,
            kind,
        },
    }
}

/// Reads all lines of a text that is not too long, and then its end.
fn script(alloc: Global, text: &[u8]) -> Result<Script, Stop>
    requires { length text.now ≤ 1048576 }
    ensures script { IfOk result (λ script. text_read (lines_of text.now) ≡ Ok script) }
    ensures stop { IfErr result (λ stop. Stops stop (text_read (lines_of text.now))) }
    ensures well_formed { IfOk result IsWellFormed }
{
    let mut reader = Reader::new(alloc);
    let mut left = Some(text);
    let mut line = 0u32;
    while let Some(rest) = left {
        line += 1;
        let (bytes, behind) = split_line(rest);
        if let Err(error) = reader.line(alloc, bytes) {
            return Err(Stop { line, error });
        }
        left = behind;
    }
    match reader.end(alloc) {
        Ok(script) => Ok(script),
        Err(error) => Err(Stop { line, error }),
    }
}

/// The script that a text says, or its first fault.
///
/// `NoMemory` says nothing of the text; its line is 0.
pub fn parse(alloc: Global, text: &[u8]) -> Result<Script, Fault>
    // The text says this script.
    ensures ok { IfOk result (Reads text.now) }
    // This is its first fault, or memory ran out.
    ensures fault { IfErr result (IsFaultOf text.now) }
    // A script that a text says keeps the ranges of the language.
    ensures well_formed { IfOk result IsWellFormed }
    // A text that says a script is refused for want of memory alone.
    ensures only { (script : Script) → Reads text.now script →
        MatchResult result (λ found. found ≡ script) (λ fault. fault ≡ memory_fault) }
{
    if text.len() > MOST_BYTES {
        return Err(Fault {
            line: 0,
            kind: FaultKind::Limit,
        });
    }
    match script(alloc, text) {
        Ok(script) => Ok(script),
        Err(stop) => Err(fault(stop)),
    }
}
