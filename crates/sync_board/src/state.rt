//! All that the board keeps of its entries but the entries themselves (MPI 3.1, sections 11.2 and 11.5).
ghost use Rattle.std.specs.Prelude.{◌≡◌, ℕ, ◌-◌, ◌<◌, ◌^◌, ◌&&◌, true, false, if◌then◌else◌, Some, List, [], ◌∷◌, ◌++◌};
ghost use Rattle.std.specs.Prelude.{slice_index, OnOk, OnErr};
ghost use Rattle.rma_types.specs.declared.scripts.Layout.{Layout};
ghost use Rattle.rma_types.specs.declared.accesses.Step.TheVariants.{Arrive, Leave};
ghost use Rattle.rma_types.specs.declared.actions.Action.TheVariants.{Meets as MeetsAction};
ghost use Rattle.rma_types.specs.Actions.{action_of};
ghost use Rattle.call_rules.specs.WellFormed.{IsWrittenCall};
ghost use Rattle.board_rules.specs.Board.{Allow, decide};
ghost use Rattle.board_rules.specs.Entries.{Barrier as BarrierCollective, Row, acts, collective_of, creations};
ghost use Rattle.board_rules.specs.Entries.{is_arrive, is_collective};
ghost use Rattle.board_rules.specs.Questions.{Question};
ghost use Rattle.board_rules.specs.Rounds.{all_arrived};
ghost use Rattle.kept_rows.specs.KeptCalls.{kept_row};
ghost use Rattle.sync_board.specs.Asked.{IsAfter, MayBeAsked, MayBeJudged, decision_of, row_asked};
ghost use Rattle.sync_board.specs.Boards.{is_step_of};
ghost use Rattle.sync_board.specs.Counted.{KeepsBarriers, KeepsCreations, KeepsState};

use crate::asked::{Asked, Judged};
use crate::counts::{add, count_at, make_room};
use crate::layouts::KeptLayout;
use crate::named::Windows;
use crate::places::{begins_window, window_named};
use rma_types::{Action, Call, NoMemory, Step};
use std::alloc::Global;

/// How many windows of each name each rank has begun to create, how often each rank has arrived at a barrier, and what
/// is kept of the windows.
#[derive(Debug, Drop)]
pub(crate) struct State {
    pub(crate) creations: Vec<u32>,
    pub(crate) barriers: Vec<u32>,
    pub(crate) windows: Windows,
}

/// The entry leaves a barrier.
fn leaves_barrier(asked: &Asked) -> bool
    requires { is_step_of asked.now.step asked.now.call.now ≡ true }
    ensures leaves { result ≡ true →
        (asked.now.step ≡ Leave) × (action_of asked.now.call.now ≡ MeetsAction) }
    ensures other { result ≡ false → collective_of asked.now.call.now ≡ Some BarrierCollective →
        asked.now.step ≡ Arrive }
{
    match asked.step {
        Step::Arrive => false,
        Step::One => false,
        Step::Leave => is_barrier(asked.call),
    }
}

/// The call is a barrier.
fn is_barrier(call: &Call) -> bool
    ensures barrier { result ≡ true → action_of call.now ≡ MeetsAction }
    ensures collective { result ≡ is_collective BarrierCollective call.now }
{
    match call.action() {
        Action::Meets => true,
        Action::Creates(_)
        | Action::Frees { .. }
        | Action::Attaches { .. }
        | Action::Detaches { .. }
        | Action::Synchronises(..)
        | Action::Moves(_)
        | Action::EndsRequest { .. } => false,
    }
}

/// The entry is the arrival at a barrier.
fn meets(asked: &Asked) -> bool
    ensures { result ≡ (is_arrive asked.now.step &&
        is_collective BarrierCollective asked.now.call.now) }
{
    match asked.step {
        Step::Arrive => is_barrier(asked.call),
        Step::Leave => false,
        Step::One => false,
    }
}

impl State {
    /// Nothing was done.
    pub(crate) fn new(alloc: Global) -> State
        ensures { (layout : Layout) (ranks : ℕ) → KeepsState layout ranks [] result }
    {
        let creations = Vec::new(alloc);
        let barriers = Vec::new(alloc);
        let windows = Windows::new(alloc);
        State {
            creations,
            barriers,
            windows,
        }
    }

    /// The round of the window of the name that an entry of the rank is on.
    fn round(&self, rank: u8, name: u8, begins: bool) -> u32
        requires name { name < 32 }
        requires small { (index : ℕ) → slice_index self.now.creations.items index < 2 ^ 27 }
        ensures value { (rows : List Row) → KeepsCreations rows self.now.creations.items →
            result ≡ (if begins then creations rows rank name else creations rows rank name - 1) }
        ensures small { result < 2 ^ 27 }
    {
        let count = count_at(&self.creations, 32 * rank as usize + name as usize);
        if begins {
            count
        } else {
            count.saturating_sub(1)
        }
    }

    /// The entry, with the window that it is on.
    pub(crate) fn ask<'c>(
        &self,
        ranks: u8,
        rank: u8,
        number: u32,
        call: &'c Call,
        step: Step,
    ) -> Asked<'c>
        requires written { IsWrittenCall call.now }
        requires small { (index : ℕ) → slice_index self.now.creations.items index < 2 ^ 27 }
        ensures ranks { result.ranks ≡ ranks }
        ensures row { row_asked result ≡
            record { rank = rank; number = number; call = call.now; step = step } }
        ensures after { (rows : List Row) → KeepsCreations rows self.now.creations.items →
            IsAfter rows result }
        ensures below { result.name < 32 }
    {
        match window_named(call) {
            None => Asked {
                ranks,
                rank,
                number,
                call,
                step,
                name: 0,
                round: 0,
                window: 0,
            },
            Some(name) => {
                let begins = begins_window(call, step);
                let round = self.round(rank, name, begins);
                Asked {
                    ranks,
                    rank,
                    number,
                    call,
                    step,
                    name,
                    round,
                    window: 32 * round + name as u32,
                }
            }
        }
    }

    /// Every rank has arrived at barriers as often as this one.
    fn have_all_met(&self, ranks: u8, rank: u8) -> bool
        ensures { (q : Question) (rows : List Row) → q.rank ≡ rank → q.ranks ≡ ranks →
            action_of q.call ≡ MeetsAction →
            q.window ≡ 0 → q.entries ≡ acts rows →
            KeepsBarriers rows self.now.barriers.items → result ≡ all_arrived q }
    {
        let begun = count_at(&self.barriers, rank as usize);
        for other in 0..ranks {
            let arrived = count_at(&self.barriers, other as usize);
            if arrived < begun {
                return false;
            }
        }
        true
    }

    /// The answer to the Leave of a barrier.
    fn judge_barrier(&self, asked: &Asked) -> Judged
        ensures { (layout : Layout) (rows : List Row) → action_of asked.now.call.now ≡ MeetsAction →
            asked.now.step ≡ Leave →
            KeepsState layout asked.now.ranks rows self.now →
            decision_of result ≡ decide asked.now.ranks rows (row_asked asked.now) }
    {
        if self.have_all_met(asked.ranks, asked.rank) {
            Judged::Allowed
        } else {
            Judged::NotYet
        }
    }

    /// The answer to an entry.
    pub(crate) fn judge(&self, alloc: Global, asked: &Asked) -> Judged
        requires asked { MayBeJudged asked.now }
        requires name { asked.now.name < 32 }
        ensures { (layout : Layout) (rows : List Row) → IsAfter rows asked.now →
            KeepsState layout asked.now.ranks rows self.now →
            decision_of result ≡ decide asked.now.ranks rows (row_asked asked.now) }
    {
        if leaves_barrier(asked) {
            self.judge_barrier(asked)
        } else {
            self.windows.judge(alloc, asked.name, asked.round, asked)
        }
    }

    /// An entry that was allowed has come.
    pub(crate) fn enter(
        &mut self,
        alloc: Global,
        asked: &Asked,
        layout: &KeptLayout,
    ) -> Result<(), NoMemory>
        requires asked { MayBeAsked layout.now asked.now }
        requires name { asked.now.name < 32 }
        ensures ok { OnOk result ((rows : List Row) → IsAfter rows asked.now →
            decide asked.now.ranks rows (row_asked asked.now) ≡ Allow →
            KeepsState layout.now asked.now.ranks rows self.old →
            KeepsState layout.now asked.now.ranks (rows ++ kept_row (row_asked asked.now) ∷ []) self.new) }
        ensures err { OnErr result ((rows : List Row) → IsAfter rows asked.now →
            KeepsState layout.now asked.now.ranks rows self.old →
            KeepsState layout.now asked.now.ranks rows self.new) }
    {
        let rank = asked.rank as usize;
        let at = 32 * rank + asked.name as usize;
        make_room(&mut self.creations, at)?;
        make_room(&mut self.barriers, rank)?;
        match self
            .windows
            .enter(alloc, asked.name, asked.round, asked, layout)
        {
            Ok(()) => {
                add(
                    &mut self.creations,
                    at,
                    begins_window(asked.call, asked.step),
                );
                add(&mut self.barriers, rank, meets(asked));
                Ok(())
            }
            Err(_) => Err(NoMemory),
        }
    }
}
