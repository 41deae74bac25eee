//! A sink in memory whose calls fail as planned.
ghost use Rattle.std.specs.Prelude.{◌≡◌, ◌+◌, ◌≤◌, ◌<◌, ◌⊎◌, ◌++◌, [], Some, IsTrue, length, min, take, is_err, IsErr};
ghost use Rattle.std.specs.Prelude.{IfOk, OnOk, OnErr};
ghost use Rattle.rma_streams.specs.Faults.{Rose};
ghost use Rattle.rma_streams.specs.Memory.{call_fails, called, faulted};

use crate::plans::FaultPlan;
use crate::streams::{Failed, Sink};
use std::alloc::{AllocError, Global};
use std::marker::Model;

/// A sink in memory, which takes at most a piece of bytes per call, and fails at the calls that it is told to
/// fail at.
///
/// Calls are counted from 1, also one that fails or that is handed nothing. Each failure is one fault, and
/// writes nothing. Both counts stand still at 2^64 - 1.
#[derive(Debug, Drop)]
pub struct MemorySink {
    bytes: Vec<u8>,
    piece: usize,
    plan: FaultPlan,
}

impl Model for MemorySink {
    ghost use Rattle.std.specs.Prelude.{◌≤◌, vec_capacity};
    ghost use Rattle.rma_streams.specs.Memory.{SinkState};

    ghost Value = { SinkState };

    ghost view = { λ sink. record {
      written = sink.bytes.items;
      room = vec_capacity sink.bytes;
      piece = sink.piece;
      plan = sink.plan;
    } };

    ghost invariant = { λ sink. 1 ≤ sink.piece };
}

impl MemorySink {
    /// An empty sink that takes at most `piece` bytes per call, at least 1, and fails at the calls whose
    /// numbers are in `failing`. A number that stands there twice is one failure. It asks for memory as it
    /// is written to.
    pub fn new(alloc: Global, piece: usize, failing: Vec<u64>) -> Self
        requires { 1 ≤ piece }
        ensures written { result.written ≡ [] }
        ensures piece { result.piece ≡ piece }
        ensures plan { result.plan ≡ record { failing = failing.items; calls = 0; faults = 0 } }
    {
        MemorySink {
            bytes: Vec::new(alloc),
            piece,
            plan: FaultPlan::new(failing),
        }
    }

    /// The same with room for `room` bytes, for which it asks for no more memory.
    pub fn with_room(
        alloc: Global,
        room: usize,
        piece: usize,
        failing: Vec<u64>,
    ) -> Result<Self, AllocError>
        requires { 1 ≤ piece }
        ensures written { IfOk result (λ sink. sink.written ≡ []) }
        ensures room { IfOk result (λ sink. sink.room ≡ room) }
        ensures piece { IfOk result (λ sink. sink.piece ≡ piece) }
        ensures plan { IfOk result (λ sink. sink.plan ≡
            record { failing = failing.items; calls = 0; faults = 0 }) }
    {
        let bytes = Vec::with_capacity(alloc, room)?;
        Ok(MemorySink {
            bytes,
            piece,
            plan: FaultPlan::new(failing),
        })
    }

    /// The bytes written so far.
    pub fn bytes(&self) -> &[u8]
        ensures { result.now ≡ self.now.written }
    {
        self.bytes.as_slice()
    }
}

impl Sink for MemorySink {
    ghost use Rattle.std.specs.Prelude.{Some};

    ghost written = { λ sink. Some sink.written };

    ghost faults = { λ sink. sink.plan.faults };

    /// Fails where the number of the call is in the list, and else only where the room is too small and no
    /// more memory is given.
    fn write(&mut self, bytes: &[u8]) -> Result<usize, Failed>
        ensures fails { IsTrue (call_fails self.old.plan) → IsErr result }
        ensures cause { OnErr result (IsTrue (call_fails self.old.plan)
            ⊎ (self.old.room < length self.old.written + min self.old.piece (length bytes.now))) }
        ensures count { IfOk result (λ n. n ≡ min self.old.piece (length bytes.now)) }
        ensures appended { IfOk result (λ n. self.new.written ≡ self.old.written ++
            take n bytes.now) }
        ensures kept { OnErr result (self.new.written ≡ self.old.written) }

        // The call is counted, and its failure is one fault.
        ensures no_fault { OnOk result (self.new.plan ≡ called self.old.plan) }
        ensures fault { OnErr result (self.new.plan ≡ faulted (called self.old.plan)) }
        ensures rose { OnErr result (Rose self.old.plan.faults self.new.plan.faults) }
        ensures never_falls { self.old.plan.faults ≤ self.new.plan.faults }

        ensures room { self.old.room ≤ self.new.room }
        ensures piece { self.new.piece ≡ self.old.piece }
        ensures piece_at_least_one { 1 ≤ self.old.piece }
    {
        if self.plan.count_call() {
            self.plan.count_fault();
            return Err(Failed);
        }
        let count = self.piece.min(bytes.len());
        if self.bytes.extend_from_slice(&bytes[..count]).is_err() {
            self.plan.count_fault();
            return Err(Failed);
        }
        Ok(count)
    }
}
