//! A next entry, as it is asked.
ghost use Rattle.std.specs.Prelude.{◌≡◌, ◌<◌, ◌≤◌, true};
ghost use Rattle.call_rules.specs.Ranks.{is_rank, natural as natural_of};
ghost use Rattle.call_rules.specs.Transfers.{rank_reached};

use crate::truths::natural;
use rma_types::{Call, Class, Step, Target};

/// A next entry: its rank among so many, the number of its call in the rank's list, its call and step, and the name,
/// the round and the number of the window that it is on. An entry on no window counts as on that of number 0.
#[derive(Clone, Copy, Debug)]
pub(crate) struct Asked<'c> {
    pub(crate) ranks: u8,
    pub(crate) rank: u8,
    pub(crate) number: u32,
    pub(crate) call: &'c Call,
    pub(crate) step: Step,
    pub(crate) name: u8,
    pub(crate) round: u32,
    pub(crate) window: u32,
}

/// What a next entry is answered.
#[derive(Clone, Copy, Debug)]
pub(crate) enum Judged {
    Refused(Class),
    Allowed,
    NotYet,
}

/// A rank that a call names.
pub(crate) fn rank_of(target: i32, ranks: u8) -> u8
    requires rank { is_rank ranks target ≡ true }
    requires few { ranks ≤ 16 }
    ensures value { natural_of target ≡ result }
    ensures below { result < 16 }
    ensures run { result < ranks }
{
    natural(target) as u8
}

/// The rank whose memory a transfer to the target reaches.
pub(crate) fn reached(rank: u8, target: Target) -> usize
    ensures { result ≡ rank_reached rank target }
{
    match target {
        Target::Own | Target::Null => rank as usize,
        Target::Named(target) => natural(target) as usize,
    }
}
