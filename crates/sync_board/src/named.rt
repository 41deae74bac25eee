//! The records of the windows, by name and by round.
ghost use Rattle.std.specs.Prelude.{◌≡◌, ℕ, ◌<◌, ◌^◌, true, Some, List, IfOk, OnOk, OnErr};
ghost use Rattle.rma_types.specs.declared.accesses.Step.TheVariants.{Arrive};
ghost use Rattle.rma_types.specs.declared.scripts.Layout.{Layout};
ghost use Rattle.rma_types.specs.declared.actions.Creation.{Creation};
ghost use Rattle.rank_rules.specs.Windows.{window_number};
ghost use Rattle.board_rules.specs.Board.{decision, is_allowed_now};
ghost use Rattle.board_rules.specs.Entries.{Barrier as BarrierCollective, Act, Row, acts, collective_of, window_of};
ghost use Rattle.board_rules.specs.Questions.{Question};
ghost use Rattle.sync_board.specs.Asked.{IsQuestion, MayBeAsked, MayBeJudged, decision_of};
ghost use Rattle.sync_board.specs.Boards.{BoardState, IsLayoutOf, IsShapeMade, rows_on};
ghost use Rattle.sync_board.specs.Named.{IsNameUntouched, KeepsName, KeepsWindows};
ghost use Rattle.sync_board.specs.Windows.{entries_after};

use crate::asked::{Asked, Judged};
use crate::grown::{Idle, grow_to};
use crate::layouts::KeptLayout;
use crate::window_record::WindowRecord;
use rma_types::{Flavor, NoMemory};
use std::alloc::Global;
use window_regions::Shape;

/// The windows of one name, by the round in which they were created, up to the last that has an entry.
#[derive(Debug, Drop)]
pub(crate) struct NameRecord {
    pub(crate) rounds: Vec<WindowRecord>,
}

impl Idle for NameRecord {
    ghost is_idle = { λ one. (layout : Layout) (ranks name : ℕ) (entries : List Act) →
        IsNameUntouched ranks name entries → KeepsName layout ranks name entries one.rounds.items };

    fn idle(alloc: Global) -> NameRecord {
        NameRecord {
            rounds: Vec::new(alloc),
        }
    }
}

impl NameRecord {
    /// The answer to an entry on the window of the round.
    pub(crate) fn judge(&self, alloc: Global, round: usize, asked: &Asked) -> Judged
        requires { MayBeJudged asked.now }
        ensures { (layout : Layout) (q : Question) (name : ℕ) → IsQuestion q asked.now →
            q.window ≡ window_number round name → KeepsName layout q.ranks name q.entries self.now.rounds.items →
            (collective_of q.call ≡ Some BarrierCollective → asked.now.step ≡ Arrive) →
            decision_of result ≡ decision q asked.now.step }
    {
        match self.rounds.get(round) {
            Some(kept) => kept.judge(asked),
            None => {
                let idle = WindowRecord::idle(alloc);
                idle.judge(asked)
            }
        }
    }

    /// An entry on the window of the round, that was allowed, has come.
    pub(crate) fn enter(
        &mut self,
        alloc: Global,
        round: usize,
        asked: &Asked,
        layout: &KeptLayout,
    ) -> Result<(), NoMemory>
        requires asked { MayBeAsked layout.now asked.now }
        requires small { round < 2 ^ 32 }
        ensures ok { OnOk result ((q : Question) (name : ℕ) → IsQuestion q asked.now →
            q.window ≡ window_number round name → is_allowed_now q asked.now.step ≡ true →
            KeepsName layout.now q.ranks name q.entries self.old.rounds.items →
            KeepsName layout.now q.ranks name (entries_after q asked.now.number asked.now.step) self.new.rounds.items) }
        ensures err { OnErr result ((q : Question) (name : ℕ) → IsQuestion q asked.now →
            q.window ≡ window_number round name →
            KeepsName layout.now q.ranks name q.entries self.old.rounds.items →
            KeepsName layout.now q.ranks name q.entries self.new.rounds.items) }
    {
        grow_to(&mut self.rounds, alloc, round + 1)?;
        let kept = &mut self.rounds[round];
        kept.enter(alloc, asked, layout)
    }
}

impl NameRecord {
    /// The shape of the window of the round, of this flavor, for so many ranks, by the arrivals at its creation.
    pub(crate) fn shape(
        &self,
        alloc: Global,
        round: usize,
        flavor: Flavor,
        ranks: u8,
    ) -> Result<Shape, NoMemory>
        ensures { IfOk result (λ shape. (board : BoardState) (row : Row) (creation : Creation)
            (name : ℕ) →
            board.ranks ≡ ranks → creation.flavor ≡ flavor → IsLayoutOf board.ranks board.layout →
            window_of (rows_on board) row ≡ window_number round name →
            KeepsName board.layout board.ranks name (acts (rows_on board)) self.now.rounds.items →
            IsShapeMade board row creation shape) }
    {
        if round < self.rounds.len() {
            let kept = &self.rounds[round];
            kept.parts.shape(alloc, flavor, ranks)
        } else {
            let idle = WindowRecord::idle(alloc);
            idle.parts.shape(alloc, flavor, ranks)
        }
    }
}

/// The windows of all names, up to the last that has an entry.
#[derive(Debug, Drop)]
pub(crate) struct Windows {
    pub(crate) names: Vec<NameRecord>,
}

impl Windows {
    /// No window has an entry.
    pub(crate) fn new(alloc: Global) -> Windows
        ensures { (layout : Layout) (ranks : ℕ) (entries : List Act) →
            ((name : ℕ) → IsNameUntouched ranks name entries) → KeepsWindows layout ranks entries result.names.items }
    {
        Windows {
            names: Vec::new(alloc),
        }
    }

    /// The answer to an entry on the window of the name and the round.
    pub(crate) fn judge(&self, alloc: Global, name: u8, round: u32, asked: &Asked) -> Judged
        requires asked { MayBeJudged asked.now }
        requires name { name < 32 }
        ensures { (layout : Layout) (q : Question) → IsQuestion q asked.now →
            q.window ≡ window_number round name →
            KeepsWindows layout q.ranks q.entries self.now.names.items →
            (collective_of q.call ≡ Some BarrierCollective → asked.now.step ≡ Arrive) →
            decision_of result ≡ decision q asked.now.step }
    {
        let at = name as usize;
        if at < self.names.len() {
            let one = &self.names[at];
            one.judge(alloc, round as usize, asked)
        } else {
            let idle = NameRecord::idle(alloc);
            idle.judge(alloc, round as usize, asked)
        }
    }

    /// An entry on the window of the name and the round, that was allowed, has come.
    pub(crate) fn enter(
        &mut self,
        alloc: Global,
        name: u8,
        round: u32,
        asked: &Asked,
        layout: &KeptLayout,
    ) -> Result<(), NoMemory>
        requires asked { MayBeAsked layout.now asked.now }
        requires name { name < 32 }
        ensures ok { OnOk result ((q : Question) → IsQuestion q asked.now →
            q.window ≡ window_number round name →
            is_allowed_now q asked.now.step ≡ true → KeepsWindows layout.now q.ranks q.entries self.old.names.items →
            KeepsWindows layout.now q.ranks (entries_after q asked.now.number asked.now.step) self.new.names.items) }
        ensures err { OnErr result ((q : Question) → IsQuestion q asked.now →
            q.window ≡ window_number round name →
            KeepsWindows layout.now q.ranks q.entries self.old.names.items →
            KeepsWindows layout.now q.ranks q.entries self.new.names.items) }
    {
        let at = name as usize;
        match grow_to(&mut self.names, alloc, at + 1) {
            Ok(()) => {}
            Err(_) => return Err(NoMemory),
        }
        let one = &mut self.names[at];
        one.enter(alloc, round as usize, asked, layout)
    }

    /// The shape of the window of the name and the round, of this flavor, for so many ranks.
    pub(crate) fn shape(
        &self,
        alloc: Global,
        name: u8,
        round: u32,
        flavor: Flavor,
        ranks: u8,
    ) -> Result<Shape, NoMemory>
        requires { name < 32 }
        ensures { IfOk result (λ shape. (board : BoardState) (row : Row) (creation : Creation) →
            board.ranks ≡ ranks → creation.flavor ≡ flavor → IsLayoutOf board.ranks board.layout →
            window_of (rows_on board) row ≡ window_number round name →
            KeepsWindows board.layout board.ranks (acts (rows_on board)) self.now.names.items →
            IsShapeMade board row creation shape) }
    {
        let at = name as usize;
        if at < self.names.len() {
            let one = &self.names[at];
            one.shape(alloc, round as usize, flavor, ranks)
        } else {
            let idle = NameRecord::idle(alloc);
            idle.shape(alloc, round as usize, flavor, ranks)
        }
    }
}
