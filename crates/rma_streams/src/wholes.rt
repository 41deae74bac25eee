//! A whole input, and a whole output.
ghost use Rattle.std.specs.Prelude.{◌≡◌, ◌≤◌, ◌<◌, ◌⊎◌, length, vec_len, IfOk, OnOk, OnErr};
ghost use Rattle.rma_streams.specs.Ends.{NoLateRead};
ghost use Rattle.rma_streams.specs.Faults.{Rose};
ghost use Rattle.rma_streams.specs.Moves.{AtEnd, Took, TookSome, Wrote, WrotePrefix};

use crate::streams::{Failed, Sink, Source};
use std::alloc::{AllocError, Global};

/// The most bytes that `read_input` takes.
pub const READ_LIMIT: usize = 1_048_577;

/// The most bytes that `read_input` asks for in one read.
const READ_PIECE: usize = 4096;

/// Why an input was not read.
#[derive(Clone, Copy, Debug, PartialEq, Eq)]
pub enum ReadError {
    /// A read failed.
    Failed,
    /// There was no memory for the bytes.
    NoMemory,
}

impl From<Failed> for ReadError {
    ghost use Rattle.rma_streams.specs.declared.wholes.ReadError.TheVariants.{Failed as ReadFailed};

    ghost from_gives = { λ _ error. error ≡ ReadFailed };

    fn from(_failed: Failed) -> ReadError {
        ReadError::Failed
    }
}

impl From<AllocError> for ReadError {
    ghost use Rattle.rma_streams.specs.declared.wholes.ReadError.TheVariants.{NoMemory};

    ghost from_gives = { λ _ error. error ≡ NoMemory };

    fn from(_error: AllocError) -> ReadError {
        ReadError::NoMemory
    }
}

/// Reads to the end of the input, or to `READ_LIMIT` bytes where it is longer.
///
/// After an `Err` some bytes may have been taken, and are lost.
pub fn read_input<S: Source>(alloc: Global, source: &mut S) -> Result<Vec<u8>, ReadError>
    ensures took { IfOk result (λ bytes. Took (S.left source.old) bytes.items (S.left source.new)) }
    ensures whole { IfOk result (λ bytes. AtEnd (S.left source.new) ⊎
        (vec_len bytes ≡ READ_LIMIT)) }
    ensures within { IfOk result (λ bytes. vec_len bytes ≤ READ_LIMIT) }
    ensures lost { OnErr result (TookSome (S.left source.old) (S.left source.new)) }

    // Where the end is told, reading is over.
    ensures no_late_read { NoLateRead (S.end source.old) (S.end source.new) }

    // Why it failed. Want of memory is no fault of the source.
    ensures never_falls { S.faults source.old ≤ S.faults source.new }
    ensures no_fault { OnOk result (S.faults source.new ≡ S.faults source.old) }
    ensures fault { result ≡ Err ReadError.Failed →
        Rose (S.faults source.old) (S.faults source.new) }
    ensures no_memory { result ≡ Err ReadError.NoMemory →
        S.faults source.new ≡ S.faults source.old }
{
    let mut bytes = Vec::new(alloc);
    let mut piece = [0u8; READ_PIECE];
    'turns: while bytes.len() < READ_LIMIT {
        let room = READ_PIECE.min(READ_LIMIT - bytes.len());
        let count = source.read(&mut piece[..room])?;
        if count == 0 {
            return Ok(bytes);
        }
        bytes.extend_from_slice(&piece[..count])?;
    }
    Ok(bytes)
}

/// Writes all of `bytes`.
///
/// After an `Err` the first of `bytes` may have been written, but not all of them.
pub fn write_output<K: Sink>(sink: &mut K, bytes: &[u8]) -> Result<(), Failed>
    ensures ok { OnOk result (Wrote (K.written sink.old) bytes.now (K.written sink.new)) }
    ensures err { OnErr result (WrotePrefix (K.written sink.old) bytes.now (K.written sink.new)) }

    // Why it failed.
    ensures never_falls { K.faults sink.old ≤ K.faults sink.new }
    ensures no_fault { OnOk result (K.faults sink.new ≡ K.faults sink.old) }
    ensures fault { OnErr result (Rose (K.faults sink.old) (K.faults sink.new)) }
{
    let mut done = 0;
    'turns: while done < bytes.len() {
        done += sink.write(&bytes[done..])?;
    }
    Ok(())
}
