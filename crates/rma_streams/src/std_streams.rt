//! The real standard input and output, as a source and a sink.
ghost use Rattle.std.specs.Prelude.{◌≡◌, ◌≤◌, ◌<◌, length, IfOk, OnOk, OnErr};
ghost use Rattle.std.specs.Io.KnownBytes.{ReadConsumes, WriteAppends};
ghost use Rattle.rma_streams.specs.Ends.{unread, after_read};
ghost use Rattle.rma_streams.specs.Faults.{Rose, counted};
ghost use Rattle.rma_streams.specs.System.{HasGivenUp};

use crate::ends::EndMark;
use crate::streams::{Failed, Sink, Source};
use crate::system_calls::Calls;
use std::io::{Read, Write};
use std::marker::Model;

/// A source over a reader of the system, as standard input. It tells no bytes.
///
/// Contracts see the reader, the count of faults, which rises at each read that fails and stands still at
/// 2^64 - 1, the end as it was told, and what the system said to the calls for the last read. What the reader knows of
/// its bytes is said of it, and stays out of the meaning as a `Source`.
#[derive(Debug, Drop)]
pub struct StdSource<R> {
    calls: Calls<R>,
    faults: u64,
    end: EndMark,
}

impl<R> Model for StdSource<R> {
    ghost use Rattle.rma_streams.specs.System.{SystemInput};

    ghost Value = { SystemInput R };

    ghost view = { λ source. record {
      stream = source.calls.stream;
      faults = source.faults;
      end = source.end;
      tried = source.calls.tried;
    } };
}

impl<R: Read> StdSource<R> {
    /// A source over `reader` that has had no fault and was not read yet.
    pub fn new(reader: R) -> Self
        ensures stream { result.stream ≡ reader }
        ensures faults { result.faults ≡ 0 }
        ensures end { result.end ≡ unread }
    {
        StdSource {
            calls: Calls::new(reader),
            faults: 0,
            end: EndMark::new(),
        }
    }
}

impl<R: Read> Source for StdSource<R> {
    ghost use Rattle.std.specs.Prelude.{None};

    ghost left = { λ _. None };

    ghost faults = { λ source. source.faults };

    ghost end = { λ source. source.end };

    /// Hands on what the reader did. A call that a signal interrupted is made again, at most 64 times; then it
    /// is a fault.
    fn read(&mut self, buf: &mut [u8]) -> Result<usize, Failed>
        ensures within { IfOk result (λ n. n ≤ length buf.new) }
        ensures moved { ReadConsumes (R.remaining self.old.stream)
            (R.remaining self.new.stream) result buf.new }
        ensures told { self.new.end ≡ after_read self.old.end (length buf.new) result }

        // It fails where the system said so, or interrupted 65 calls. Each failure is one fault.
        ensures given_up { OnErr result (HasGivenUp self.new.tried) }
        ensures no_fault { OnOk result (self.new.faults ≡ self.old.faults) }
        ensures fault { OnErr result (self.new.faults ≡ counted self.old.faults) }
        ensures rose { OnErr result (Rose self.old.faults self.new.faults) }
        ensures never_falls { self.old.faults ≤ self.new.faults }
    {
        let room = buf.len();
        let answer = self.calls.read(buf);
        self.end.note(room, answer);
        if answer.is_err() {
            self.faults = self.faults.saturating_add(1);
        }
        answer
    }
}

/// A sink over a writer of the system, as standard output. It tells no bytes.
///
/// Contracts see the writer, the count of faults, which rises at each write that fails, or that takes no byte of a piece
/// that is not empty, and stands still at 2^64 - 1, and what the system said to the calls for the last write.
#[derive(Debug, Drop)]
pub struct StdSink<W> {
    calls: Calls<W>,
    faults: u64,
}

impl<W> Model for StdSink<W> {
    ghost use Rattle.rma_streams.specs.System.{SystemOutput};

    ghost Value = { SystemOutput W };

    ghost view = { λ sink. record {
      stream = sink.calls.stream;
      faults = sink.faults;
      tried = sink.calls.tried;
    } };
}

impl<W: Write> StdSink<W> {
    /// A sink over `writer` that has had no fault.
    pub fn new(writer: W) -> Self
        ensures stream { result.stream ≡ writer }
        ensures faults { result.faults ≡ 0 }
    {
        StdSink {
            calls: Calls::new(writer),
            faults: 0,
        }
    }
}

impl<W: Write> Sink for StdSink<W> {
    ghost use Rattle.std.specs.Prelude.{None};

    ghost written = { λ _. None };

    ghost faults = { λ sink. sink.faults };

    /// Hands on what the writer did. A call that a signal interrupted is made again, at most 64 times; then it
    /// is a fault.
    fn write(&mut self, bytes: &[u8]) -> Result<usize, Failed>
        ensures within { IfOk result (λ n. n ≤ length bytes.now) }
        ensures some { IfOk result (λ n. 0 < length bytes.now → 0 < n) }
        ensures appended { WriteAppends (W.contents self.old.stream)
            (W.contents self.new.stream) result bytes.now }

        // It fails where the system said so, or interrupted 65 calls. Each failure is one fault.
        ensures given_up { OnErr result (HasGivenUp self.new.tried) }
        ensures no_fault { OnOk result (self.new.faults ≡ self.old.faults) }
        ensures fault { OnErr result (self.new.faults ≡ counted self.old.faults) }
        ensures rose { OnErr result (Rose self.old.faults self.new.faults) }
        ensures never_falls { self.old.faults ≤ self.new.faults }
    {
        let answer = self.calls.write(bytes);
        if answer.is_err() {
            self.faults = self.faults.saturating_add(1);
        }
        answer
    }
}
