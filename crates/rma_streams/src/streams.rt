//! The traits of the outside.
ghost use Rattle.std.specs.Prelude.{◌≡◌, ℕ, ◌<◌, ◌≤◌, Option, List, length, take, IfOk, OnOk, OnErr};
ghost use Rattle.rma_streams.specs.Ends.{End, after_read};
ghost use Rattle.rma_streams.specs.Faults.{Rose};
ghost use Rattle.rma_streams.specs.Moves.{AtEnd, Took, Wrote};

/// A read or a write failed. The stream that answers it has counted a fault.
#[derive(Clone, Copy, Debug, PartialEq, Eq)]
pub struct Failed;

/// Where bytes come from.
///
/// Contracts see three things of a source: the bytes that are left, where it tells them; the count of its
/// faults, which never falls and stands still at 2^64 - 1; and whether its end was told, with the count of the
/// reads after that.
pub trait Source {
    // The bytes that are left, where the source tells them.
    ghost left: { Self → Option (List ℕ) };

    // How often it failed.
    ghost faults: { Self → ℕ };

    // Whether its end was told, and how many reads came after that.
    ghost end: { Self → End };

    /// Moves the next bytes into the front of `buf`, and answers how many: at most the length of `buf`, and
    /// none at a `buf` that is not empty only at the end of the input. After an `Err` no byte was moved.
    fn read(&mut self, buf: &mut [u8]) -> Result<usize, Failed>
        ensures within { IfOk result (λ n. n ≤ length buf.new) }
        ensures moved { IfOk result (λ n. Took (left self.old) (take n buf.new) (left self.new)) }
        ensures ended { IfOk result (λ n. n ≡ 0 → 0 < length buf.new → AtEnd (left self.new)) }
        ensures told { end self.new ≡ after_read (end self.old) (length buf.new) result }
        ensures kept { OnErr result (left self.new ≡ left self.old) }

        // Why it failed.
        ensures never_falls { faults self.old ≤ faults self.new }
        ensures fault { OnErr result (Rose (faults self.old) (faults self.new)) }
        ensures no_fault { OnOk result (faults self.new ≡ faults self.old) };
}

/// Where bytes go.
///
/// Contracts see two things of a sink: the bytes written, where it tells them, and the count of its faults,
/// which never falls and stands still at 2^64 - 1.
pub trait Sink {
    // The bytes written so far, where the sink tells them.
    ghost written: { Self → Option (List ℕ) };

    // How often it failed.
    ghost faults: { Self → ℕ };

    /// Writes the first of `bytes`, and answers how many: at least one where there is one. After an `Err`
    /// nothing of `bytes` was written.
    fn write(&mut self, bytes: &[u8]) -> Result<usize, Failed>
        ensures within { IfOk result (λ n. n ≤ length bytes.now) }
        ensures some { IfOk result (λ n. 0 < length bytes.now → 0 < n) }
        ensures appended { IfOk result (λ n. Wrote (written self.old) (take n bytes.now)
            (written self.new)) }
        ensures kept { OnErr result (written self.new ≡ written self.old) }

        // Why it failed.
        ensures never_falls { faults self.old ≤ faults self.new }
        ensures fault { OnErr result (Rose (faults self.old) (faults self.new)) }
        ensures no_fault { OnOk result (faults self.new ≡ faults self.old) };
}
