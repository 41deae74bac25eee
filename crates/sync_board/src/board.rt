//! The board of a run.
ghost use Rattle.std.specs.Prelude.{◌≡◌, ◌<◌, ◌≤◌, ℕ, List, [], map, IfSome, IfOk, OnErr};
ghost use Rattle.std.specs.List.{AllByRecursion};
ghost use Rattle.std.specs.Option.{option_map};

use crate::answers::{Decided, EntryRow};
use crate::asked::{Asked, Judged};
use crate::layouts::KeptLayout;
use crate::lists::EntryList;
use crate::preparing::prepare_entry;
use crate::state::State;
use cell_face::Token;
use entry_gains::Gains;
use rma_types::{Call, Layout, NoMemory, Step};
use std::alloc::Global;
use std::marker::Model;

/// The entries of all ranks of a run in one order, and what follows from it (MPI 3.1, sections 11.2 and 11.5).
#[derive(Drop)]
pub struct Board<N: Token> {
    alloc: Global,
    ranks: u8,
    layout: KeptLayout,
    list: EntryList<N>,
    state: State,
    gains: Gains<N>,
    root: N,
}

impl<N: Token> Model for Board<N> {
    ghost use Rattle.sync_board.specs.Boards.{BoardState};

    ghost Value = { BoardState };

    ghost use Rattle.sync_board.specs.Lists.{entries_in};
    ghost use Rattle.sync_board.specs.Kept.{IsKept};

    ghost view = { λ board. record {
      ranks = board.ranks;
      layout = board.layout;
      name = N.origin board.root;
      entries = entries_in N.front board.list;
    } };

    ghost invariant = { λ board. IsKept N.front N.origin board.ranks board.layout board.list board.state board.gains
        board.root };
}

/// The gift, and another token like it to keep.
fn forked<N: Token>(gift: &mut Option<N>) -> Option<N>
    ensures front { option_map N.front result ≡ option_map N.front gift.old }
    ensures same { option_map N.front gift.new ≡ option_map N.front gift.old }
    ensures origin { (name : List ℕ) → IfSome gift.old (λ token. N.origin token ≡ name) →
        IfSome gift.new (λ token. N.origin token ≡ name) }
{
    match gift {
        Some(token) => {
            let copy = token.fork();
            Some(copy)
        }
        None => None,
    }
}

impl<N: Token> Board<N> {
    ghost use Rattle.board_rules.specs.Board.{Allow, decide as answer_to};
    ghost use Rattle.sync_board.specs.Asked.{IsAfter, row_asked};
    ghost use Rattle.sync_board.specs.Boards.{IsAnswer, IsGiftOfToken, IsLayoutOf, MayAsk};
    ghost use Rattle.sync_board.specs.Boards.{entry_row, rows_on};

    /// A board without entries, for 1 to 16 ranks with this layout of memory. The root is a token of the memory from
    /// which gifts come; it is kept, and is no gift.
    pub fn new(alloc: Global, ranks: u8, layout: &Layout, root: N) -> Result<Board<N>, NoMemory>
        requires some { 1 ≤ ranks }
        requires few { ranks ≤ 16 }
        requires layout { IsLayoutOf ranks layout.now }
        ensures { IfOk result (λ board. board ≡
            record { ranks = ranks; layout = layout.now; name = N.origin root; entries = [] }) }
    {
        match KeptLayout::copy(alloc, layout) {
            Err(_) => Err(NoMemory),
            Ok(layout) => {
                let mut root = root;
                let copy = root.fork();
                let list = EntryList::new(alloc);
                let state = State::new(alloc);
                let gains = Gains::new(alloc, ranks, copy);
                Ok(Board {
                    alloc,
                    ranks,
                    layout,
                    list,
                    state,
                    gains,
                    root,
                })
            }
        }
    }

    /// Puts an entry that is allowed at the end.
    fn enter(&mut self, asked: &Asked, gift: Option<N>) -> Result<Decided<N>, NoMemory>
        requires asked { MayAsk self.old.ranks self.old.layout (row_asked asked.now) }
        requires ranks { asked.now.ranks ≡ self.old.ranks }
        requires few { self.old.ranks ≤ 16 }
        requires name { asked.now.name < 32 }
        requires after { IsAfter (rows_on self.old) asked.now }
        requires allowed { answer_to self.old.ranks (rows_on self.old) (row_asked asked.now) ≡
            Allow }
        requires gift { IfSome gift (λ token. N.origin token ≡ self.old.name) }
        ensures answer { IfOk result (λ answer.
            IsAnswer N.front N.origin self.old (row_asked asked.now) gift answer self.new) }
        ensures unchanged { OnErr result (self.new ≡ self.old) }
    {
        let mut gift = gift;
        match prepare_entry(
            self.alloc,
            asked,
            &self.layout,
            &mut self.list,
            &mut self.state,
            &mut self.gains,
        ) {
            Err(_) => Err(NoMemory),
            Ok(prepared) => {
                let place = self.list.rows.len() as u32;
                let kept = forked(&mut gift);
                let gained = self
                    .gains
                    .gained(asked.rank, asked.window, asked.call, asked.step);
                self.gains
                    .put(asked.rank, asked.window, asked.call, asked.step, gift);
                let row = EntryRow {
                    rank: asked.rank,
                    call: asked.number,
                    step: asked.step,
                };
                self.list.push(row, prepared.call, kept);
                Ok(Decided::Entered {
                    place,
                    gained,
                    made: prepared.made,
                })
            }
        }
    }

    /// Answers the next entry of a rank: this step of the call that has this number in the rank's list. Where it is
    /// entered it stands at the end of the list (MPI 3.1, sections 11.2 and 11.5).
    ///
    /// Where a count stands at the end of its type, or memory is wanting, nothing changes.
    pub fn decide(
        &mut self,
        rank: u8,
        number: u32,
        call: &Call,
        step: Step,
        gift: Option<N>,
    ) -> Result<Decided<N>, NoMemory>
        requires asked { MayAsk self.old.ranks self.old.layout
            (record { rank = rank; number = number; call = call.now; step = step }) }
        requires number { number < 65536 }
        requires gift { IfSome gift (λ token. N.origin token ≡ self.old.name) }
        ensures answer { IfOk result (λ answer. IsAnswer N.front N.origin self.old
            (record { rank = rank; number = number; call = call.now; step = step }) gift answer self.new) }
        ensures unchanged { OnErr result (self.new ≡ self.old) }
    {
        let asked = self.state.ask(self.ranks, rank, number, call, step);
        match self.state.judge(self.alloc, &asked) {
            Judged::Refused(class) => {
                let seen = self.list.rows.len() as u32;
                Ok(Decided::Refused { class, seen, gift })
            }
            Judged::NotYet => Ok(Decided::NotYet { gift }),
            Judged::Allowed => self.enter(&asked, gift),
        }
    }

    /// The entries, in the order of their places.
    pub fn entries(&self) -> &[EntryRow]
        ensures { result.now ≡ map entry_row self.now.entries }
    {
        self.list.rows.as_slice()
    }

    /// Each gift in the list is the front of a token, so where all tokens tell their fronts each gift tells one.
    ///
    /// It is a theorem, and does nothing when it is called.
    pub fn gifts_of_tokens(&self)
        ensures { AllByRecursion (IsGiftOfToken N.front) self.now.entries }
    {
        let _ = &self.list;
    }
}
