//! How many updates the calls of a rank make: so great a share of a memory is enough for it (MPI 3.1, section 11.3).
ghost use Rattle.std.specs.Prelude.{◌≡◌, ◌≤◌, ℕ, length, sum_by};
ghost use Rattle.std.specs.List.{AllByRecursion};
ghost use Rattle.call_rules.specs.WellFormed.{IsWellFormed, IsWrittenCall};
ghost use Rattle.lawful_runs.specs.Logs.{calls_of as calls_by};
ghost use Rattle.rank_engine.specs.DataAnswers.{GivesRoom};
ghost use Rattle.rank_engine.specs.Shares.{updates_of as updates_by};

use rma_types::{Call, Op, Script};

/// The calls of a rank; none where there is no such rank.
pub(crate) fn calls_of(script: &Script, rank: u8) -> &[Call]
    requires { IsWellFormed script.now }
    ensures calls { result.now ≡ calls_by script.now rank }
    ensures written { AllByRecursion IsWrittenCall result.now }
    ensures few { length result.now ≤ 65536 }
{
    match script.calls.get(usize::from(rank)) {
        Some(list) => list.as_slice(),
        None => &[],
    }
}

/// How many elements a call changes, 0 to 256.
fn updates_of(call: &Call) -> u32
    requires written { IsWrittenCall call.now }
    ensures count { result ≡ updates_by call.now }
    ensures few { result ≤ 256 }
{
    match call {
        Call::Put { values, .. } | Call::Store { values, .. } => values.len() as u32,
        Call::Acc { op, values, .. } | Call::GetAcc { op, values, .. } => {
            if *op == Op::NoOp {
                0
            } else {
                values.len() as u32
            }
        }
        Call::Fop { op, .. } => if *op == Op::NoOp { 0 } else { 1 },
        Call::Cas { .. } => 1,
        _ => 0,
    }
}

/// How many updates the calls of a rank make, from 0 to 16,777,216: a new rank has room in a memory with such a share.
#[tactic(auto, using(crate::proofs::NewRanks::gives_room))]
pub fn share_for(script: &Script, rank: u8) -> u32
    requires { IsWellFormed script.now }
    ensures count { result ≡ sum_by updates_by (calls_by script.now rank) }
    ensures has_room { GivesRoom script.now rank result }
{
    let calls = calls_of(script, rank);
    let mut share = 0u32;
    for call in calls {
        share += updates_of(call);
    }
    share
}
