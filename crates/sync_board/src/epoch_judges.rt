//! What a post, a start, a wait and a lock are answered, by what is kept of the window (MPI 3.1, sections 11.5.2 and
//! 11.5.3).
ghost use Rattle.std.specs.Prelude.{◌≡◌, ℕ, ◌<◌, ◌≤◌, Bool, false, Option, List, ℤ};
ghost use Rattle.rma_types.specs.declared.accesses.Step.TheVariants.{One};
ghost use Rattle.rma_types.specs.declared.scripts.Layout.{Layout};
ghost use Rattle.rma_types.specs.declared.actions.Action.TheVariants.{Synchronises};
ghost use Rattle.rma_types.specs.declared.actions.Synchronisation.TheVariants.{Locks, Posts, Starts, Waits};
ghost use Rattle.rma_types.specs.Actions.{action_of};
ghost use Rattle.board_rules.specs.Board.{decision, meets_post};
ghost use Rattle.board_rules.specs.Questions.{Question};
ghost use Rattle.rank_rules.specs.EpochTests.{is_wrong_group};
ghost use Rattle.sync_board.specs.Asked.{IsQuestion, decision_of};
ghost use Rattle.sync_board.specs.Reaches.{Reaches};
ghost use Rattle.sync_board.specs.Windows.{KeepsBefore};

use crate::asked::{Asked, Judged};
use crate::matches::{has_completes, has_posts};
use crate::truths::truths_of;
use crate::window_record::WindowRecord;
use entry_gains::Reach;
use rma_types::{Asserts, Class, Lock, Ranks};

impl WindowRecord {
    /// A rank of the reach is posted.
    fn is_any_posted(&self, reach: Reach) -> bool
        ensures { (layout : Layout) (q : Question) (target : Option ℤ) → Reaches q.ranks target reach →
            KeepsBefore layout q self.now → result ≡ meets_post q target }
    {
        for rank in reach.first..reach.end {
            if self.side_table.is_posted(rank as usize) {
                return true;
            }
        }
        false
    }

    /// The answer to a post: a lock at the rank refuses it.
    pub(crate) fn judge_post(&self, asked: &Asked) -> Judged
        requires { asked.now.rank < 16 }
        ensures { (layout : Layout) (q : Question) (win : ℕ) (group : List ℤ) (asserts : Asserts) →
            IsQuestion q asked.now → action_of q.call ≡ Synchronises win (Posts group asserts) →
            KeepsBefore layout q self.now → decision_of result ≡ decision q One }
    {
        if self.lock_state.is_locked(asked.rank) {
            Judged::Refused(Class::Sync)
        } else {
            Judged::Allowed
        }
    }

    /// The answer to a start: its group's posts must have come.
    pub(crate) fn judge_start(&self, asked: &Asked, group: &Ranks<'_>) -> Judged
        requires { asked.now.rank < 16 }
        ensures { (layout : Layout) (q : Question) (win : ℕ) (asserts : Asserts) →
            IsQuestion q asked.now →
            action_of q.call ≡ Synchronises win (Starts group.now asserts) →
            q.ranks ≤ 16 → is_wrong_group q.ranks group.now ≡ false →
            KeepsBefore layout q self.now → decision_of result ≡ decision q One }
    {
        let truths = truths_of(group);
        if has_posts(&self.side_table, asked.rank as usize, &truths) {
            Judged::Allowed
        } else {
            Judged::NotYet
        }
    }

    /// The answer to a wait or a true testwin: the completes of the posts' group must have come.
    pub(crate) fn judge_wait(&self, asked: &Asked) -> Judged
        requires { asked.now.rank < 16 }
        ensures { (layout : Layout) (q : Question) (win : ℕ) (tests : Bool) →
            IsQuestion q asked.now →
            action_of q.call ≡ Synchronises win (Waits tests) →
            KeepsBefore layout q self.now → decision_of result ≡ decision q One }
    {
        if has_completes(&self.side_table, asked.rank as usize) {
            Judged::Allowed
        } else {
            Judged::NotYet
        }
    }

    /// The answer to a lock of a kind: a post of a rank of the reach refuses it, and a lock that excludes it has it
    /// wait.
    pub(crate) fn judge_lock(&self, kind: Lock, reach: Reach) -> Judged
        requires { reach.end ≤ 16 }
        ensures { (layout : Layout) (q : Question) (win : ℕ) (target : Option ℤ) (asserts : Asserts) →
            action_of q.call ≡ Synchronises win (Locks kind target asserts) → Reaches q.ranks target reach →
            KeepsBefore layout q self.now → decision_of result ≡ decision q One }
    {
        if self.is_any_posted(reach) {
            return Judged::Refused(Class::Sync);
        }
        if self.lock_state.may_lock(kind, reach) {
            Judged::Allowed
        } else {
            Judged::NotYet
        }
    }
}
