//! A source in memory whose calls fail as planned.
ghost use Rattle.std.specs.Prelude.{◌≡◌, ◌≤◌, ◌<◌, ◌++◌, [], Some, length, min, take, is_err, if◌then◌else◌, IfOk};
ghost use Rattle.std.specs.Prelude.{OnOk, OnErr};
ghost use Rattle.rma_streams.specs.Ends.{unread, after_read};
ghost use Rattle.rma_streams.specs.Faults.{Rose, counted};
ghost use Rattle.rma_streams.specs.Memory.{call_fails, called, faulted};

use crate::cursors::ByteCursor;
use crate::ends::EndMark;
use crate::plans::FaultPlan;
use crate::streams::{Failed, Source};
use std::marker::Model;

/// A source over bytes in memory, which hands out at most a piece of them per call, and fails at the calls
/// that it is told to fail at.
///
/// Calls are counted from 1, also one that fails or that is handed no room. Each failure is one fault, and
/// moves no byte. Both counts stand still at 2^64 - 1.
#[derive(Debug, Drop)]
pub struct MemorySource {
    rest: ByteCursor,
    piece: usize,
    plan: FaultPlan,
    end: EndMark,
}

impl Model for MemorySource {
    ghost use Rattle.std.specs.Prelude.{◌≤◌};
    ghost use Rattle.rma_streams.specs.Memory.{SourceState};

    ghost Value = { SourceState };

    ghost view = { λ source. record {
      left = source.rest;
      piece = source.piece;
      plan = source.plan;
      end = source.end;
    } };

    ghost invariant = { λ source. 1 ≤ source.piece };
}

impl MemorySource {
    /// A source of `bytes` that hands out at most `piece` of them per call, at least 1, and fails at the
    /// calls whose numbers are in `failing`. A number that stands there twice is one failure.
    pub fn new(bytes: Vec<u8>, piece: usize, failing: Vec<u64>) -> Self
        requires { 1 ≤ piece }
        ensures left { result.left ≡ bytes.items }
        ensures piece { result.piece ≡ piece }
        ensures plan { result.plan ≡ record { failing = failing.items; calls = 0; faults = 0 } }
        ensures end { result.end ≡ unread }
    {
        MemorySource {
            rest: ByteCursor::new(bytes),
            piece,
            plan: FaultPlan::new(failing),
            end: EndMark::new(),
        }
    }
}

impl Source for MemorySource {
    ghost use Rattle.std.specs.Prelude.{Some};

    ghost left = { λ source. Some source.left };

    ghost faults = { λ source. source.plan.faults };

    ghost end = { λ source. source.end };

    /// Fails exactly where the number of the call is in the list.
    fn read(&mut self, buf: &mut [u8]) -> Result<usize, Failed>
        ensures fails { is_err result ≡ call_fails self.old.plan }
        ensures count { IfOk result (λ n. n ≡ min (min self.old.piece (length buf.new))
            (length self.old.left)) }
        ensures moved { IfOk result (λ n. self.old.left ≡ take n buf.new ++ self.new.left) }
        ensures kept { OnErr result (self.new.left ≡ self.old.left) }
        ensures told { self.new.end ≡ after_read self.old.end (length buf.new) result }

        // The call is counted, and its failure is one fault.
        ensures no_fault { OnOk result (self.new.plan ≡ called self.old.plan) }
        ensures fault { OnErr result (self.new.plan ≡ faulted (called self.old.plan)) }
        ensures rose { OnErr result (Rose self.old.plan.faults self.new.plan.faults) }
        ensures never_falls { self.old.plan.faults ≤ self.new.plan.faults }
        ensures piece { self.new.piece ≡ self.old.piece }
        ensures piece_at_least_one { 1 ≤ self.old.piece }
    {
        let room = buf.len();
        if self.plan.count_call() {
            self.plan.count_fault();
            self.end.note(room, Err(Failed));
            return Err(Failed);
        }
        let count = self.rest.take_into(self.piece, buf);
        self.end.note(room, Ok(count));
        Ok(count)
    }
}
