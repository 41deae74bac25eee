//! Whether a start has its posts, and a wait its completes (MPI 3.1, section 11.5.2).
ghost use Rattle.std.specs.Prelude.{◌≡◌, ℕ, ◌<◌, List};
ghost use Rattle.board_rules.specs.Posts.{last_posted, start_has_posts, wait_has_completes};
ghost use Rattle.board_rules.specs.Questions.{Question};
ghost use Rattle.sync_board.specs.Sides.{AreRanks, Done, IsGroup, done_at, has_post_of, has_complete_of};
ghost use Rattle.sync_board.specs.Tables.{KeepsSides};

use crate::side_table::SideTable;

/// The member has posted to the rank once more than the rank has started to it.
fn has_post(table: &SideTable, rank: usize, member: usize) -> bool
    requires rank { rank < 16 }
    requires member { member < 16 }
    ensures { (done_of : ℕ → Done) → KeepsSides done_of table.now.sides.items →
        result ≡ has_post_of done_of rank member }
{
    let started = table.started(rank, member);
    let posted = table.posted(member, rank);
    started < posted
}

/// The member has completed towards the rank as often as the rank has posted to it.
fn has_complete(table: &SideTable, rank: usize, member: usize) -> bool
    requires rank { rank < 16 }
    requires member { member < 16 }
    ensures { (done_of : ℕ → Done) → KeepsSides done_of table.now.sides.items →
        result ≡ has_complete_of done_of rank member }
{
    let completed = table.completed(member, rank);
    let posted = table.posted(rank, member);
    completed == posted
}

/// Each member of a start's group has posted to the rank once more than the rank has started to it.
pub(crate) fn has_posts(table: &SideTable, rank: usize, group: &[bool; 16]) -> bool
    requires rank { rank < 16 }
    ensures { (q : Question) (members : List ℕ) → q.rank ≡ rank →
        KeepsSides (done_at q) table.now.sides.items → IsGroup group.now members → AreRanks members →
        result ≡ start_has_posts q members }
{
    for member in 0..16 {
        if group[member] && !has_post(table, rank, member) {
            return false;
        }
    }
    true
}

/// Each member of the rank's last post has completed towards the rank as often as the rank has posted to it.
pub(crate) fn has_completes(table: &SideTable, rank: usize) -> bool
    requires rank { rank < 16 }
    ensures { (q : Question) → q.rank ≡ rank →
        KeepsSides (done_at q) table.now.sides.items → AreRanks (last_posted q) →
        result ≡ wait_has_completes q }
{
    let group = table.last_post(rank);
    for member in 0..16 {
        if group[member] && !has_complete(table, rank, member) {
            return false;
        }
    }
    true
}
