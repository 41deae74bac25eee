//! An entry that is allowed, put to what is kept of its window (MPI 3.1, section 11.5).
ghost use Rattle.std.specs.Prelude.{◌≡◌, ℕ, true, false, is_some, OnOk, OnErr};
ghost use Rattle.rma_types.specs.declared.accesses.Step.TheVariants.{Arrive, Leave, One};
ghost use Rattle.rma_types.specs.declared.actions.Action.TheVariants.{Synchronises};
ghost use Rattle.rma_types.specs.Actions.{action_of};
ghost use Rattle.rma_types.specs.declared.scripts.Layout.{Layout};
ghost use Rattle.rank_rules.specs.EpochTests.{names_wrong_rank};
ghost use Rattle.board_rules.specs.Board.{is_allowed_now, may_synchronise_now};
ghost use Rattle.board_rules.specs.Entries.{fence_or_none};
ghost use Rattle.board_rules.specs.Questions.{Question};
ghost use Rattle.sync_board.specs.Asked.{IsQuestion, MayBeAsked, MayBeJudged};
ghost use Rattle.sync_board.specs.Nothing.{brings_nothing};
ghost use Rattle.sync_board.specs.Windows.{KeepsAfter, KeepsBefore};

use crate::asked::Asked;
use crate::layouts::KeptLayout;
use crate::reach::reach_of;
use crate::truths::natural;
use crate::window_record::WindowRecord;
use rma_types::{Action, NoMemory, Step, Synchronisation};
use std::alloc::Global;

impl WindowRecord {
    /// An entry that changes nothing of what is kept.
    fn pass(&self)
        ensures { (layout : Layout) (q : Question) (number : ℕ) (step : Step) →
            brings_nothing step (action_of q.call) ≡ true →
            KeepsBefore layout q self.now → KeepsAfter layout q number step self.now }
    {}

    /// The arrival at a synchronisation has come.
    fn enter_meeting(
        &mut self,
        alloc: Global,
        asked: &Asked,
        synchronisation: &Synchronisation<'_>,
    ) -> Result<(), NoMemory>
        requires { is_some (fence_or_none synchronisation.now) ≡ true }
        ensures ok { OnOk result ((layout : Layout) (q : Question) (win : ℕ) →
            IsQuestion q asked.now →
            action_of q.call ≡ Synchronises win synchronisation.now →
            KeepsBefore layout q self.old →
            KeepsAfter layout q asked.now.number Arrive self.new) }
        ensures err { OnErr result ((layout : Layout) (q : Question) →
            KeepsBefore layout q self.old → KeepsBefore layout q self.new) }
    {
        match synchronisation {
            Synchronisation::Fences(asserts) => self.fence(alloc, asked.rank, *asserts),
            Synchronisation::Posts(..)
            | Synchronisation::Starts(..)
            | Synchronisation::Completes
            | Synchronisation::Waits { .. }
            | Synchronisation::Locks(..)
            | Synchronisation::Unlocks(_)
            | Synchronisation::Flushes { .. }
            | Synchronisation::Syncs => unreachable!(),
        }
    }

    /// An arrival has come.
    fn enter_arrival(
        &mut self,
        alloc: Global,
        asked: &Asked,
        layout: &KeptLayout,
    ) -> Result<(), NoMemory>
        requires asked { MayBeAsked layout.now asked.now }
        requires step { asked.now.step ≡ Arrive }
        ensures ok { OnOk result ((q : Question) → IsQuestion q asked.now →
            KeepsBefore layout.now q self.old → KeepsAfter layout.now q asked.now.number Arrive self.new) }
        ensures err { OnErr result ((q : Question) →
            KeepsBefore layout.now q self.old → KeepsBefore layout.now q self.new) }
    {
        let part = layout.part(asked.rank, asked.number, asked.call);
        match asked.call.action() {
            Action::Creates(creation) => self.create(alloc, asked.rank, creation.flavor, part),
            Action::Frees { .. } => self.free(alloc, asked.rank),
            Action::Synchronises(_, synchronisation) => {
                self.enter_meeting(alloc, asked, &synchronisation)
            }
            Action::Meets => {
                self.pass();
                Ok(())
            }
            Action::Attaches { .. }
            | Action::Detaches { .. }
            | Action::Moves(_)
            | Action::EndsRequest { .. } => unreachable!(),
        }
    }

    /// A rank has left a collective call.
    fn enter_leave(&mut self, alloc: Global, asked: &Asked, layout: &KeptLayout)
        requires asked { MayBeAsked layout.now asked.now }
        requires step { asked.now.step ≡ Leave }
        ensures { (q : Question) → IsQuestion q asked.now →
            KeepsBefore layout.now q self.old → KeepsAfter layout.now q asked.now.number Leave self.new }
    {
        match asked.call.action() {
            Action::Frees { .. } => self.freed(alloc, asked.rank),
            Action::Creates(_) => self.pass(),
            Action::Synchronises(..) => self.pass(),
            Action::Meets => self.pass(),
            Action::Attaches { .. }
            | Action::Detaches { .. }
            | Action::Moves(_)
            | Action::EndsRequest { .. } => unreachable!(),
        }
    }

    /// A synchronisation of one entry has come, which was allowed.
    fn enter_synchronisation(
        &mut self,
        alloc: Global,
        asked: &Asked,
        synchronisation: &Synchronisation<'_>,
    ) -> Result<(), NoMemory>
        requires asked { MayBeJudged asked.now }
        requires names { names_wrong_rank asked.now.ranks synchronisation.now ≡ false }
        requires one { is_some (fence_or_none synchronisation.now) ≡ false }
        ensures ok { OnOk result ((layout : Layout) (q : Question) (win : ℕ) →
            IsQuestion q asked.now →
            action_of q.call ≡ Synchronises win synchronisation.now →
            may_synchronise_now q synchronisation.now ≡ true →
            KeepsBefore layout q self.old → KeepsAfter layout q asked.now.number One self.new) }
        ensures err { OnErr result ((layout : Layout) (q : Question) →
            KeepsBefore layout q self.old → KeepsBefore layout q self.new) }
    {
        let rank = asked.rank;
        match synchronisation {
            Synchronisation::Posts(group, _) => self.post(alloc, rank, group),
            Synchronisation::Starts(group, _) => self.start(alloc, rank, group),
            Synchronisation::Completes => self.complete(alloc, rank),
            Synchronisation::Waits { .. } => self.wait(alloc, rank),
            Synchronisation::Locks(kind, target, _) => {
                let reach = reach_of(target, asked.ranks);
                self.lock_state.lock(asked.window, rank, *kind, reach);
                Ok(())
            }
            Synchronisation::Unlocks(target) => {
                let reach = reach_of(target, asked.ranks);
                self.lock_state.unlock(asked.window, rank, reach);
                Ok(())
            }
            Synchronisation::Flushes { .. } => {
                self.pass();
                Ok(())
            }
            Synchronisation::Syncs => {
                self.pass();
                Ok(())
            }
            Synchronisation::Fences(_) => unreachable!(),
        }
    }

    /// An entry of step One has come, which was allowed.
    fn enter_one(
        &mut self,
        alloc: Global,
        asked: &Asked,
        layout: &KeptLayout,
    ) -> Result<(), NoMemory>
        requires asked { MayBeAsked layout.now asked.now }
        requires step { asked.now.step ≡ One }
        ensures ok { OnOk result ((q : Question) → IsQuestion q asked.now →
            is_allowed_now q One ≡ true →
            KeepsBefore layout.now q self.old → KeepsAfter layout.now q asked.now.number One self.new) }
        ensures err { OnErr result ((q : Question) →
            KeepsBefore layout.now q self.old → KeepsBefore layout.now q self.new) }
    {
        let rank = asked.rank;
        match asked.call.action() {
            Action::Synchronises(_, synchronisation) => {
                self.enter_synchronisation(alloc, asked, &synchronisation)
            }
            Action::Attaches { base, bytes, .. } => {
                self.attach(alloc, rank, natural(base), natural(bytes))
            }
            Action::Detaches { base, .. } => {
                self.detach(rank, natural(base));
                Ok(())
            }
            Action::Moves(_) => {
                self.pass();
                Ok(())
            }
            Action::EndsRequest { .. } => {
                self.pass();
                Ok(())
            }
            Action::Creates(_) | Action::Frees { .. } | Action::Meets => unreachable!(),
        }
    }

    /// An entry that was allowed has come.
    pub(crate) fn enter(
        &mut self,
        alloc: Global,
        asked: &Asked,
        layout: &KeptLayout,
    ) -> Result<(), NoMemory>
        requires { MayBeAsked layout.now asked.now }
        ensures ok { OnOk result ((q : Question) → IsQuestion q asked.now →
            is_allowed_now q asked.now.step ≡ true →
            KeepsBefore layout.now q self.old → KeepsAfter layout.now q asked.now.number asked.now.step self.new) }
        ensures err { OnErr result ((q : Question) →
            KeepsBefore layout.now q self.old → KeepsBefore layout.now q self.new) }
    {
        match asked.step {
            Step::Arrive => self.enter_arrival(alloc, asked, layout),
            Step::Leave => {
                self.enter_leave(alloc, asked, layout);
                Ok(())
            }
            Step::One => self.enter_one(alloc, asked, layout),
        }
    }
}
