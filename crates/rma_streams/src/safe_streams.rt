//! A source and a sink that never fail.
ghost use Rattle.std.specs.Prelude.{◌≡◌, ◌≤◌, ◌<◌, ◌++◌, [], Some, None, length, min, take, IfOk, IsOkAnd};
ghost use Rattle.rma_streams.specs.Ends.{unread, after_read};

use crate::cursors::ByteCursor;
use crate::ends::EndMark;
use crate::streams::{Failed, Sink, Source};
use std::alloc::{AllocError, Global};
use std::marker::Model;

/// A source over bytes in memory that never fails: its count of faults is always 0. It hands out as much as
/// there is room for.
#[derive(Debug, Drop)]
pub struct SafeSource {
    rest: ByteCursor,
    end: EndMark,
}

impl Model for SafeSource {
    ghost use Rattle.rma_streams.specs.Memory.{SafeState};

    ghost Value = { SafeState };

    ghost view = { λ source. record { left = source.rest; end = source.end } };
}

impl SafeSource {
    /// A source of `bytes`.
    pub fn new(bytes: Vec<u8>) -> Self
        ensures left { result.left ≡ bytes.items }
        ensures end { result.end ≡ unread }
    {
        SafeSource {
            rest: ByteCursor::new(bytes),
            end: EndMark::new(),
        }
    }
}

impl Source for SafeSource {
    ghost use Rattle.std.specs.Prelude.{Some};

    ghost left = { λ source. Some source.left };

    ghost faults = { λ _. 0 };

    ghost end = { λ source. source.end };

    /// Never fails.
    fn read(&mut self, buf: &mut [u8]) -> Result<usize, Failed>
        ensures count { IsOkAnd result (λ n. n ≡ min (length buf.new) (length self.old.left)) }
        ensures moved { IfOk result (λ n. self.old.left ≡ take n buf.new ++ self.new.left) }
        ensures told { self.new.end ≡ after_read self.old.end (length buf.new) result }
    {
        let room = buf.len();
        let count = self.rest.take_into(room, buf);
        self.end.note(room, Ok(count));
        Ok(count)
    }
}

/// A sink that never fails: its count of faults is always 0. It takes all that it is handed, holds the first
/// of it in memory, as much as its room allows, and drops the rest.
///
/// It could not hold everything without asking for memory, which may fail, so it tells no bytes as a `Sink`.
/// Its own contract says what it holds.
#[derive(Debug, Drop)]
pub struct SafeSink {
    bytes: Vec<u8>,
    room: usize,
}

impl Model for SafeSink {
    ghost use Rattle.std.specs.Prelude.{◌≤◌, vec_len, vec_capacity};
    ghost use Rattle.rma_streams.specs.Memory.{HeldBytes};

    ghost Value = { HeldBytes };

    ghost view = { λ sink. record { held = sink.bytes.items; room = sink.room } };

    ghost invariant = { λ sink. (vec_len sink.bytes ≤ sink.room) × (sink.room ≤ vec_capacity sink.bytes) };
}

impl SafeSink {
    /// An empty sink that holds the first `room` bytes that it is handed.
    pub fn new(alloc: Global, room: usize) -> Result<Self, AllocError>
        ensures held { IfOk result (λ sink. sink.held ≡ []) }
        ensures room { IfOk result (λ sink. sink.room ≡ room) }
    {
        let bytes = Vec::with_capacity(alloc, room)?;
        Ok(SafeSink { bytes, room })
    }

    /// The bytes that it holds.
    pub fn bytes(&self) -> &[u8]
        ensures { result.now ≡ self.now.held }
    {
        self.bytes.as_slice()
    }
}

impl Sink for SafeSink {
    ghost use Rattle.std.specs.Prelude.{None};

    ghost written = { λ _. None };

    ghost faults = { λ _. 0 };

    /// Takes all that it is handed, and never fails.
    fn write(&mut self, bytes: &[u8]) -> Result<usize, Failed>
        ensures all { result ≡ Ok (length bytes.now) }
        ensures held { self.new.held ≡ take self.old.room (self.old.held ++ bytes.now) }
        ensures room { self.new.room ≡ self.old.room }
    {
        let free = self.room - self.bytes.len();
        let kept = free.min(bytes.len());
        self.bytes.extend_from_slice(&bytes[..kept]).unwrap();
        Ok(bytes.len())
    }
}
