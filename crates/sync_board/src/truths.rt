//! The groups of posts and starts (MPI 3.1, section 11.5.2).
ghost use Rattle.std.specs.Prelude.{◌≡◌, ◌<◌, ◌≤◌};
ghost use Rattle.call_rules.specs.Ranks.{members_of, natural as natural_of};
ghost use Rattle.call_rules.specs.WellFormed.{IsUpTo};
ghost use Rattle.sync_board.specs.Sides.{IsGroup};

use rma_types::Ranks;

/// An integer as a rank: a negative one counts as 0.
pub(crate) fn natural(z: i32) -> u32
    ensures { result ≡ natural_of z }
{
    if z < 0 { 0 } else { z as u32 }
}

/// The elements of a call, at most 256; a count below 0 counts as 0.
pub(crate) fn few_elements(count: i64) -> u32
    requires { IsUpTo 256 count }
    ensures value { result ≡ natural_of count }
    ensures few { result ≤ 256 }
{
    if count < 0 { 0 } else { count as u32 }
}

/// For each of 16 ranks, whether it is a member of the group.
pub(crate) fn truths_of(group: &Ranks<'_>) -> [bool; 16]
    ensures { IsGroup result (members_of group.now) }
{
    let mut named = [false; 16];
    let ranks = group.as_slice();
    for rank in ranks {
        let member = natural(*rank) as usize;
        if member < 16 {
            named[member] = true;
        }
    }
    named
}
