//! The calls and the log of a rank.
ghost use Rattle.std.specs.Prelude.{◌≡◌};
ghost use Rattle.lawful_runs.specs.Logs.{calls_of, log_of};

use rma_record::{Item, Run};
use rma_types::{Call, Script};

/// The calls of a rank; none where there is no such rank.
pub fn calls_at(script: &Script, rank: u8) -> &[Call]
    ensures { result.now ≡ calls_of script.now rank }
{
    match script.calls.get(rank as usize) {
        Some(calls) => calls.as_slice(),
        None => &[],
    }
}

/// The log of a rank; empty where there is no such rank.
pub fn log_at(run: &Run, rank: u8) -> &[Item]
    ensures { result.now ≡ log_of run.now rank }
{
    match run.logs.get(rank as usize) {
        Some(log) => log.items(),
        None => &[],
    }
}
