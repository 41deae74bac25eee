//! The ranks at which a lock is taken or given back (MPI 3.1, section 11.5.3).
ghost use Rattle.std.specs.Prelude.{◌≡◌, ◌≤◌, true, false, Some, None};
ghost use Rattle.call_rules.specs.Ranks.{is_rank};
ghost use Rattle.rank_rules.specs.EpochTests.{is_wrong_rank};
ghost use Rattle.sync_board.specs.Reaches.{Reaches};

use crate::asked::rank_of;
use entry_gains::Reach;

/// The one rank of so many that a call names.
fn reach_one(target: &i32, ranks: u8) -> Reach
    requires rank { is_rank ranks target.now ≡ true }
    requires few { ranks ≤ 16 }
    ensures { Reaches ranks (Some target.now) result }
{
    let first = rank_of(*target, ranks);
    Reach {
        first,
        end: first + 1,
    }
}

/// All of so many ranks.
fn reach_all(ranks: u8) -> Reach
    ensures { Reaches ranks None result }
{
    Reach {
        first: 0,
        end: ranks,
    }
}

/// The one rank of so many that a call names, or all of them where it names none.
pub(crate) fn reach_of(target: &Option<i32>, ranks: u8) -> Reach
    requires rank { is_wrong_rank ranks target.now ≡ false }
    requires few { ranks ≤ 16 }
    ensures { Reaches ranks target.now result }
{
    match target {
        None => reach_all(ranks),
        Some(target) => reach_one(target, ranks),
    }
}
