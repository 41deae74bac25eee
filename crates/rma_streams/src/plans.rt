//! The plan of the failures of a stream in memory.
ghost use Rattle.std.specs.Prelude.{◌≡◌, ◌≤◌};
ghost use Rattle.rma_streams.specs.Faults.{Rose};
ghost use Rattle.rma_streams.specs.Memory.{call_fails, called, faulted};

use std::marker::Model;

/// Which calls are to fail, and how many calls and faults there were.
#[derive(Debug, Drop)]
pub(crate) struct FaultPlan {
    /// The numbers of the calls that are to fail, counted from 1, in any order.
    failing: Vec<u64>,
    calls: u64,
    faults: u64,
}

impl Model for FaultPlan {
    ghost use Rattle.rma_streams.specs.Memory.{Plan};

    ghost Value = { Plan };

    ghost view = { λ p. record { failing = p.failing.items; calls = p.calls; faults = p.faults } };
}

impl FaultPlan {
    pub(crate) fn new(failing: Vec<u64>) -> Self
        ensures { result ≡ record { failing = failing.items; calls = 0; faults = 0 } }
    {
        FaultPlan {
            failing,
            calls: 0,
            faults: 0,
        }
    }

    /// Counts a call, and says whether it is to fail.
    pub(crate) fn count_call(&mut self) -> bool
        ensures answer { result ≡ call_fails self.old }
        ensures counts { self.new ≡ called self.old }
    {
        self.calls = self.calls.saturating_add(1);
        self.failing.contains(&self.calls)
    }

    pub(crate) fn count_fault(&mut self)
        ensures counts { self.new ≡ faulted self.old }
        ensures rose { Rose self.old.faults self.new.faults }
        ensures never_falls { self.old.faults ≤ self.new.faults }
    {
        self.faults = self.faults.saturating_add(1);
    }
}
