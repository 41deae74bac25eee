//! What a next entry is answered, by what is kept of its window (MPI 3.1, section 11.5).
ghost use Rattle.std.specs.Prelude.{◌≡◌, ℕ, false, Some};
ghost use Rattle.rma_types.specs.declared.accesses.Step.TheVariants.{Arrive, Leave, One};
ghost use Rattle.rma_types.specs.declared.scripts.Layout.{Layout};
ghost use Rattle.rma_types.specs.declared.actions.Creation.{Creation};
ghost use Rattle.rma_types.specs.declared.actions.Action.TheVariants.{Creates, Moves, Synchronises};
ghost use Rattle.rma_types.specs.declared.actions.Synchronisation.TheVariants.{Fences};
ghost use Rattle.rma_types.specs.Actions.{action_of};
ghost use Rattle.call_rules.specs.WellFormed.{IsWrittenTransfer};
ghost use Rattle.rank_rules.specs.EpochTests.{names_wrong_rank};
ghost use Rattle.board_rules.specs.Board.{decision};
ghost use Rattle.board_rules.specs.Entries.{Barrier as BarrierCollective, collective_of};
ghost use Rattle.board_rules.specs.Questions.{Question};
ghost use Rattle.sync_board.specs.Asked.{IsQuestion, MayBeJudged, decision_of};
ghost use Rattle.sync_board.specs.Rounds.{collective_by};
ghost use Rattle.sync_board.specs.Windows.{KeepsBefore};

use crate::asked::{Asked, Judged, reached};
use crate::reach::reach_of;
use crate::rounds::{Kind, kind_of};
use crate::truths::{few_elements, natural};
use crate::window_record::WindowRecord;
use rma_types::{Action, Asserts, Class, Flavor, Step, Synchronisation, Transfer};

impl WindowRecord {
    /// The answer to the arrival at a creation.
    fn judge_creation(&self, asked: &Asked, flavor: Flavor) -> Judged
        ensures { (layout : Layout) (q : Question) (creation : Creation) → IsQuestion q asked.now →
            action_of q.call ≡ Creates creation → creation.flavor ≡ flavor →
            KeepsBefore layout q self.now → decision_of result ≡ decision q Arrive }
    {
        if self
            .round_table
            .has_other_creation(asked.ranks as usize, asked.rank as usize, flavor)
        {
            Judged::Refused(Class::Flavor)
        } else {
            Judged::Allowed
        }
    }

    /// The answer to the arrival at a fence.
    fn judge_fence(&self, asked: &Asked, asserts: Asserts) -> Judged
        ensures { (layout : Layout) (q : Question) (win : ℕ) → IsQuestion q asked.now →
            action_of q.call ≡ Synchronises win (Fences asserts) →
            KeepsBefore layout q self.now → decision_of result ≡ decision q Arrive }
    {
        if self
            .round_table
            .has_other_fence(asked.ranks as usize, asked.rank as usize, asserts)
        {
            Judged::Refused(Class::Assert)
        } else {
            Judged::Allowed
        }
    }

    /// The answer to the arrival at a synchronisation.
    fn judge_meeting(&self, asked: &Asked, synchronisation: &Synchronisation<'_>) -> Judged
        ensures { (layout : Layout) (q : Question) (win : ℕ) → IsQuestion q asked.now →
            action_of q.call ≡ Synchronises win synchronisation.now →
            KeepsBefore layout q self.now → decision_of result ≡ decision q Arrive }
    {
        match synchronisation {
            Synchronisation::Fences(asserts) => self.judge_fence(asked, *asserts),
            Synchronisation::Posts(..)
            | Synchronisation::Starts(..)
            | Synchronisation::Completes
            | Synchronisation::Waits { .. }
            | Synchronisation::Locks(..)
            | Synchronisation::Unlocks(_)
            | Synchronisation::Flushes { .. }
            | Synchronisation::Syncs => Judged::Allowed,
        }
    }

    /// The answer to an arrival.
    fn judge_arrival(&self, asked: &Asked) -> Judged
        ensures { (layout : Layout) (q : Question) → IsQuestion q asked.now →
            KeepsBefore layout q self.now →
            decision_of result ≡ decision q Arrive }
    {
        match asked.call.action() {
            Action::Creates(creation) => self.judge_creation(asked, creation.flavor),
            Action::Synchronises(_, synchronisation) => {
                self.judge_meeting(asked, &synchronisation)
            }
            Action::Frees { .. }
            | Action::Attaches { .. }
            | Action::Detaches { .. }
            | Action::Meets
            | Action::Moves(_)
            | Action::EndsRequest { .. } => Judged::Allowed,
        }
    }

    /// The answer to the Leave of a collective call of the kind.
    fn judge_leave(&self, asked: &Asked, kind: Kind) -> Judged
        ensures { (layout : Layout) (q : Question) → IsQuestion q asked.now →
            collective_of q.call ≡ Some (collective_by kind) → KeepsBefore layout q self.now →
            decision_of result ≡ decision q Leave }
    {
        if self
            .round_table
            .have_all_arrived(kind, asked.ranks as usize, asked.rank as usize)
        {
            Judged::Allowed
        } else {
            Judged::NotYet
        }
    }

    /// The answer to the look-up of a transfer of the rank: a byte that its target has not attached
    /// refuses it.
    fn judge_look_up(&self, rank: u8, transfer: &Transfer<'_>) -> Judged
        requires { IsWrittenTransfer transfer.now }
        ensures { (layout : Layout) (q : Question) → q.rank ≡ rank →
            action_of q.call ≡ Moves transfer.now →
            KeepsBefore layout q self.now → decision_of result ≡ decision q One }
    {
        let target = reached(rank, transfer.target);
        let lo = natural(transfer.disp);
        let elements = few_elements(transfer.count);
        let size = transfer.dtype.size();
        let bytes = elements * size;
        if self.region_table.covers(target, lo, bytes) {
            Judged::Allowed
        } else {
            Judged::Refused(Class::Range)
        }
    }

    /// The answer to a synchronisation that has one entry.
    fn judge_synchronisation(&self, asked: &Asked, synchronisation: &Synchronisation<'_>) -> Judged
        requires asked { MayBeJudged asked.now }
        requires names { names_wrong_rank asked.now.ranks synchronisation.now ≡ false }
        ensures { (layout : Layout) (q : Question) (win : ℕ) → IsQuestion q asked.now →
            action_of q.call ≡ Synchronises win synchronisation.now →
            KeepsBefore layout q self.now → decision_of result ≡ decision q One }
    {
        match synchronisation {
            Synchronisation::Posts(..) => self.judge_post(asked),
            Synchronisation::Starts(group, _) => self.judge_start(asked, group),
            Synchronisation::Waits { .. } => self.judge_wait(asked),
            Synchronisation::Locks(kind, target, _) => {
                self.judge_lock(*kind, reach_of(target, asked.ranks))
            }
            Synchronisation::Fences(_)
            | Synchronisation::Completes
            | Synchronisation::Unlocks(_)
            | Synchronisation::Flushes { .. }
            | Synchronisation::Syncs => Judged::Allowed,
        }
    }

    /// The answer to an entry of step One.
    fn judge_one(&self, asked: &Asked) -> Judged
        requires { MayBeJudged asked.now }
        ensures { (layout : Layout) (q : Question) → IsQuestion q asked.now →
            KeepsBefore layout q self.now →
            decision_of result ≡ decision q One }
    {
        match asked.call.action() {
            Action::Synchronises(_, synchronisation) => {
                self.judge_synchronisation(asked, &synchronisation)
            }
            Action::Moves(transfer) => self.judge_look_up(asked.rank, &transfer),
            Action::Creates(_)
            | Action::Frees { .. }
            | Action::Attaches { .. }
            | Action::Detaches { .. }
            | Action::Meets
            | Action::EndsRequest { .. } => Judged::Allowed,
        }
    }

    /// The answer to an entry. Barriers are on no window, and their Leave is answered without one.
    pub(crate) fn judge(&self, asked: &Asked) -> Judged
        requires { MayBeJudged asked.now }
        ensures { (layout : Layout) (q : Question) → IsQuestion q asked.now →
            KeepsBefore layout q self.now →
            (collective_of q.call ≡ Some BarrierCollective → asked.now.step ≡ Arrive) →
            decision_of result ≡ decision q asked.now.step }
    {
        match asked.step {
            Step::Arrive => self.judge_arrival(asked),
            Step::One => self.judge_one(asked),
            Step::Leave => match kind_of(asked.call) {
                Some(kind) => self.judge_leave(asked, kind),
                None => Judged::Allowed,
            },
        }
    }
}
