//! The totals of a script: its calls and its bytes of memory.
ghost use Rattle.std.specs.Prelude.{◌≡◌, ◌≤◌, ◌<◌, ◌^◌, ◌+◌, ◌*◌, nat_le, if◌then◌else◌, length};
ghost use Rattle.call_rules.specs.Layout.{round_up, call_bytes};
ghost use Rattle.script_language.specs.declared.faults.FaultKind.TheVariants.{Limit};

use rma_types::Call;
use script_language::FaultKind;

/// The most calls of all ranks, and the most bytes of their memory.
const MOST: u32 = 65536;

/// The calls of all ranks, and the bytes of their memory.
#[derive(Clone, Copy, Debug, PartialEq, Eq)]
pub struct Totals {
    pub calls: u32,
    pub bytes: u32,
}

/// The bytes of a space, up to a multiple of 8.
pub fn space_size(space: u32) -> u32
    requires { space ≤ 65536 }
    ensures { result ≡ round_up space }
{
    8 * ((space + 7) / 8)
}

/// The bytes of the part of an `allocate`, and 0 for any other call.
pub fn call_size(call: &Call) -> u32
    ensures { result ≡ call_bytes call.now }
{
    match call {
        Call::Allocate { bytes, .. } => {
            if *bytes < 0 {
                0
            } else {
                8 * ((*bytes as u32 + 7) / 8)
            }
        }
        _ => 0,
    }
}

/// A total with so much more at each of some ranks, within its limit.
fn sum(total: u32, ranks: usize, more: u64) -> Result<u32, FaultKind>
    requires { total ≤ 65536 }
    ensures { result ≡ (if nat_le (total + ranks * more) 65536 then Ok
        (total + ranks * more) else Err Limit) }
{
    let sum = total as u128 + ranks as u128 * more as u128;
    if sum <= MOST as u128 {
        Ok(sum as u32)
    } else {
        Err(FaultKind::Limit)
    }
}

impl Totals {
    ghost use Rattle.script_reader.specs.Totals.{within_limits, totals_with, totals_behind};

    /// The totals with so many calls and bytes more at each of some ranks.
    pub fn with(self, ranks: usize, calls: u64, bytes: u64) -> Result<Totals, FaultKind>
        requires few_calls { self.calls ≤ 65536 }
        requires few_bytes { self.bytes ≤ 65536 }
        ensures { result ≡ within_limits (totals_with self ranks calls bytes) }
    {
        let calls = sum(self.calls, ranks, calls)?;
        let bytes = sum(self.bytes, ranks, bytes)?;
        Ok(Totals { calls, bytes })
    }

    /// The totals once each of some ranks has the calls so often.
    pub fn behind(self, ranks: usize, times: u32, calls: &[Call]) -> Result<Totals, FaultKind>
        requires few_calls { self.calls ≤ 65536 }
        requires few_bytes { self.bytes ≤ 65536 }
        ensures { result ≡ within_limits (totals_behind self ranks times calls.now) }
    {
        let mut totals = self;
        for call in calls {
            totals = totals.with(ranks, times as u64, times as u64 * call_size(call) as u64)?;
        }
        Ok(totals)
    }
}
