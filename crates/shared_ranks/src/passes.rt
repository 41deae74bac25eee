//! How far a rank has come at the gate.
use rma_types::{Gate, Script};

/// The calls of a rank for which it has passed the gate: all that are before the next.
#[derive(Clone, Copy, Debug)]
pub(crate) struct Passes {
    pub(crate) rank: u8,
    calls: u32,
    next: u32,
}

impl Passes {
    /// None of the calls of this rank.
    pub(crate) fn new(script: &Script, rank: u8) -> Passes {
        let calls = match script.calls.get(usize::from(rank)) {
            Some(calls) => u32::try_from(calls.len()).unwrap_or(u32::MAX),
            None => 0,
        };
        Passes {
            rank,
            calls,
            next: 0,
        }
    }

    /// Passes the gate for the call of this number, where there is such a call and it was not yet passed for it.
    pub(crate) fn come_to<G: Gate>(&mut self, call: u32, gate: &G) {
        if self.next <= call && call < self.calls {
            gate.pass(self.rank, call);
            self.next = call + 1;
        }
    }
}
