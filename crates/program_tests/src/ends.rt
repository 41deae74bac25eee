//! How the program ends over memory.
ghost use Rattle.std.specs.Prelude.{◌≤◌};

use rma_program::rma_main;
use rma_streams::{MemorySink, MemorySource};
use rma_types::OpenGate;
use std::alloc::{AllocError, Global};

/// A script in which rank 0 puts 5 between two fences, and rank 1 loads it.
pub(crate) const FENCED_PUT: &str =
    "ranks 2\nrank 0\nallocate w0 4 4\nfence w0\nput w0 1 0 int32 5\nfence w0\nrank 1\nallocate w0 4 4\nfence w0\nfence w0\nload w0 0 int32 1\n";

pub(crate) const FENCED_PUT_REPORT: &str =
    "ended\n1:3 value 5\nmemory 1 0 0500000000000000\nsummary accesses 2 touches 2 entries 12 refused 0 findings 0\n";

pub(crate) const USAGE_LINE: &str =
    "usage: rma_runner [--mode M] [--order O] [--workers N] [--delay D] [--seed S]\n";

/// A stream that moves at most so many bytes a call, and whose call of this number fails, the first being 1.
#[derive(Clone, Copy)]
pub(crate) struct Pace {
    pub piece: usize,
    pub failing: u64,
}

/// More bytes a call than any of the texts here has, and no call that fails.
pub(crate) const AT_ONCE: Pace = Pace {
    piece: 4096,
    failing: 0,
};

/// What the program wrote, its status, and whether it handed a run back.
#[derive(Debug, Drop)]
pub(crate) struct End {
    pub status: u8,
    pub written: Vec<u8>,
    pub has_run: bool,
}

pub(crate) fn words_from(alloc: Global, texts: &[&str]) -> Result<Vec<String>, AllocError> {
    let mut words = Vec::new(alloc);
    for text in texts {
        words.push(String::from_str(alloc, text)?)?;
    }
    Ok(words)
}

/// How the program ends by these words on this text.
pub(crate) fn end_of(
    alloc: Global,
    words: &[&str],
    text: &str,
    reads: Pace,
    writes: Pace,
) -> Result<End, AllocError>
    requires reads { 1 ≤ reads.piece }
    requires writes { 1 ≤ writes.piece }
{
    let words = words_from(alloc, words)?;
    let bytes = Vec::from_slice(alloc, text.as_bytes())?;
    let failing_reads = Vec::from_slice(alloc, &[reads.failing])?;
    let failing_writes = Vec::from_slice(alloc, &[writes.failing])?;
    let mut source = MemorySource::new(bytes, reads.piece, failing_reads);
    let mut sink = MemorySink::with_room(alloc, 4096, writes.piece, failing_writes)?;
    let outcome = rma_main(alloc, words.as_slice(), &mut source, &mut sink, &OpenGate);
    Ok(End {
        status: outcome.status,
        written: Vec::from_slice(alloc, sink.bytes())?,
        has_run: outcome.run.is_some(),
    })
}
