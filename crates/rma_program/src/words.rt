//! The words of the command line, as the system gives them.
ghost use Rattle.std.specs.Prelude.{◌≡◌, ◌≢◌, Ok, Err, None, drop, IfOk, IfErr, MatchResult};
ghost use Rattle.std.specs.IoError.{error_kind};
ghost use Rattle.std.specs.Vec.Iter.{into_iter_items};
ghost use Rattle.rma_streams.specs.Faults.{Rose};
ghost use Rattle.rma_program.specs.Words.{why_no_words};
ghost use Rattle.rma_program.specs.Tops.{EndsUsage};

use crate::outcomes::{OUT_OF_MEMORY, Outcome, WRITE_FAILED};
use crate::tops::refuse_words;
use rma_streams::Sink;
use std::alloc::{AllocError, Global};
use std::env::Args;
use std::io;
use std::io::ErrorKind;

/// Why there are no words.
#[derive(Clone, Copy, Debug, PartialEq, Eq)]
pub enum NoWords {
    /// A word is no text, and so stands for nothing.
    NoText,
    /// Memory ran out.
    NoMemory,
}

/// All words but the program's name, which is the first.
fn without_name(alloc: Global, all: Args) -> Result<Vec<String>, AllocError>
    ensures { IfOk result (λ words. words.items ≡ drop 1 (into_iter_items all)) }
{
    all.skip(1).collect(alloc)
}

/// The words after the program's name. `arguments` is what the system says of the command line.
pub fn words_of(alloc: Global, arguments: io::Result<Args>) -> Result<Vec<String>, NoWords>
    ensures words { IfOk arguments (λ all. MatchResult result
        (λ words. words.items ≡ drop 1 (into_iter_items all)) (λ why. why ≡ NoWords.NoMemory)) }
    ensures none { IfErr arguments (λ error. result ≡ Err (why_no_words (error_kind error))) }
{
    match arguments {
        Ok(all) => match without_name(alloc, all) {
            Ok(words) => Ok(words),
            Err(_) => Err(NoWords::NoMemory),
        },
        Err(error) => match error.kind() {
            ErrorKind::OutOfMemory => Err(NoWords::NoMemory),
            _ => Err(NoWords::NoText),
        },
    }
}

/// How the program ends where there are no words: one that is no text is refused like every other, and the source
/// is not read.
pub fn end_without_words<K: Sink>(why: NoWords, sink: &mut K) -> Outcome
    ensures no_text { why ≡ NoWords.NoText → EndsUsage (K.written sink.old)
        (K.written sink.new) result }
    ensures no_memory { why ≡ NoWords.NoMemory
        → (result ≡ record { status = OUT_OF_MEMORY; run = None }) × (sink.new ≡ sink.old) }

    // The count of faults rises exactly where the status says so.
    ensures failed { result.status ≡ WRITE_FAILED → Rose (K.faults sink.old) (K.faults sink.new) }
    ensures no_fault { result.status ≢ WRITE_FAILED → K.faults sink.new ≡ K.faults sink.old }
{
    match why {
        NoWords::NoText => refuse_words(sink),
        NoWords::NoMemory => Outcome::without_run(OUT_OF_MEMORY),
    }
}
