//! Calls of the system, which a signal may interrupt (EINTR).
ghost use Rattle.std.specs.Prelude.{◌≡◌, ◌≤◌, ◌<◌, false, length, IfOk, OnErr};
ghost use Rattle.std.specs.Io.KnownBytes.{ReadConsumes, WriteAppends};
ghost use Rattle.rma_streams.specs.System.{HasGivenUp, after_call};

use crate::streams::Failed;
use std::io;
use std::io::{ErrorKind, Read, Write};

/// The most calls of the system for one read or one write: it is tried again after a signal interrupted it, at most 64
/// times.
const MOST_CALLS: u32 = 65;

/// What the system said to the calls for one read or one write.
#[derive(Clone, Copy, Debug, PartialEq, Eq)]
pub(crate) struct Tried {
    /// How many of them a signal interrupted. The count stands still at 2^64 - 1.
    interrupted: u64,
    /// Whether one of them failed for another cause.
    failed: bool,
}

impl Tried {
    /// No call was made yet.
    fn new() -> Self
        ensures { result ≡ record { interrupted = 0; failed = false } }
    {
        Tried {
            interrupted: 0,
            failed: false,
        }
    }

    /// Notes what the system said to one call more.
    fn note(&mut self, answer: &io::Result<usize>)
        ensures { self.new ≡ after_call self.old answer.now }
    {
        let Err(error) = answer else {
            return;
        };
        match error.kind() {
            ErrorKind::Interrupted => self.interrupted = self.interrupted.saturating_add(1),
            _ => self.failed = true,
        }
    }
}

/// A stream of the system, and what the system said to the calls for the last read or write.
#[derive(Debug, Drop)]
pub(crate) struct Calls<X> {
    pub(crate) stream: X,
    pub(crate) tried: Tried,
}

impl<X> Calls<X> {
    /// A stream to which no call was made.
    pub(crate) fn new(stream: X) -> Self
        ensures stream { result.stream ≡ stream }
    {
        Calls {
            stream,
            tried: Tried::new(),
        }
    }
}

impl<R: Read> Calls<R> {
    /// One call to read.
    fn read_once(&mut self, buf: &mut [u8]) -> io::Result<usize>
        ensures within { IfOk result (λ n. n ≤ length buf.new) }
        ensures moved { ReadConsumes (R.remaining self.old.stream)
            (R.remaining self.new.stream) result buf.new }
        ensures tried { self.new.tried ≡ after_call self.old.tried result }
    {
        let answer = self.stream.read(buf);
        self.tried.note(&answer);
        answer
    }

    /// Reads, and again where the call was interrupted.
    pub(crate) fn read(&mut self, buf: &mut [u8]) -> Result<usize, Failed>
        ensures within { IfOk result (λ n. n ≤ length buf.new) }
        ensures moved { ReadConsumes (R.remaining self.old.stream)
            (R.remaining self.new.stream) result buf.new }
        ensures given_up { OnErr result (HasGivenUp self.new.tried) }
    {
        self.tried = Tried::new();
        'calls: for _ in 0..MOST_CALLS {
            match self.read_once(buf) {
                Ok(count) => return Ok(count),
                Err(error) if error.kind() == ErrorKind::Interrupted => {}
                Err(_) => return Err(Failed),
            }
        }
        Err(Failed)
    }
}

impl<W: Write> Calls<W> {
    /// One call to write. That none of bytes that are not empty is taken is an error.
    fn write_once(&mut self, bytes: &[u8]) -> io::Result<usize>
        ensures within { IfOk result (λ n. n ≤ length bytes.now) }
        ensures some { IfOk result (λ n. 0 < length bytes.now → 0 < n) }
        ensures appended { WriteAppends (W.contents self.old.stream)
            (W.contents self.new.stream) result bytes.now }
        ensures tried { self.new.tried ≡ after_call self.old.tried result }
    {
        let answer = match self.stream.write(bytes) {
            Ok(0) if !bytes.is_empty() => Err(io::Error::from(ErrorKind::WriteZero)),
            answer => answer,
        };
        self.tried.note(&answer);
        answer
    }

    /// Writes, and again where the call was interrupted.
    pub(crate) fn write(&mut self, bytes: &[u8]) -> Result<usize, Failed>
        ensures within { IfOk result (λ n. n ≤ length bytes.now) }
        ensures some { IfOk result (λ n. 0 < length bytes.now → 0 < n) }
        ensures appended { WriteAppends (W.contents self.old.stream)
            (W.contents self.new.stream) result bytes.now }
        ensures given_up { OnErr result (HasGivenUp self.new.tried) }
    {
        self.tried = Tried::new();
        'calls: for _ in 0..MOST_CALLS {
            match self.write_once(bytes) {
                Ok(count) => return Ok(count),
                Err(error) if error.kind() == ErrorKind::Interrupted => {}
                Err(_) => return Err(Failed),
            }
        }
        Err(Failed)
    }
}
