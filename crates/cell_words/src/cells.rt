//! The cells, and the passes to them.
ghost use Rattle.std.specs.Prelude.{◌≡◌, ◌<◌, ◌+◌, ◌^◌, ℕ, List, [], IfOk, IfSome, IfNone};
ghost use Rattle.std.specs.Prelude.{length, map, sum, sum_by, All};
ghost use Rattle.std.specs.Mem.Slots.{slots_items, slots_len, IsFull};
ghost use Rattle.cell_words.specs.Views.{first_view, held};
ghost use Rattle.cell_words.specs.Words.{words_of};
ghost use Rattle.cell_words.specs.Holders.{new_pass, views_of};
ghost use Rattle.cell_words.specs.Closings.{IsHistory, AreBitsOf, Gathers};

use crate::seats::CellSeat;
use crate::shared_steps::Holder;
use crate::steps::{Histories, Start};
use crate::views::View;
use crate::words::{seen, word};
use atomic_table::{Closed, Table};
use rma_types::NoMemory;
use std::alloc::Global;
use std::marker::Model;

/// Cells of 4 bytes that several ranks use at once.
#[derive(Drop)]
pub struct Cells {
    pub(crate) table: Table<(), View, Start, Histories, Global>,
}

impl Model for Cells {
    ghost use Rattle.std.specs.Prelude.{◌≡◌, ◌+◌, length};
    ghost use Rattle.cell_words.specs.Holders.{SharedCells};

    ghost Value = { SharedCells };

    ghost view = { λ cells. let shared = cells.table.shared in record {
      table = shared.table_id;
      init = shared.key.init.items;
      shares = shared.key.shares.items;
    } };

    ghost invariant = { λ cells. let shared = cells.table.shared in
        (shared.table_id.words ≡ length shared.key.init.items + 1) × (shared.table_id.slots ≡ 0) };
}

/// What becomes a seat: it borrows nothing.
#[derive(Drop)]
pub struct CellPass {
    pub(crate) seat: Holder,
    pub(crate) share: u32,
}

impl Model for CellPass {
    ghost use Rattle.std.specs.Prelude.{◌≡◌, []};
    ghost use Rattle.cell_words.specs.Holders.{Passed, IsWhole};

    ghost Value = { Passed };

    ghost view = { λ pass. record { table = pass.seat.table_id; view = pass.seat.me.0 } };

    ghost invariant = { λ pass. let view = pass.seat.me.0 in
        IsWhole pass.seat.table_id view.lows × (pass.share ≡ view.share) × (view.deal ≡ [])
        × (pass.seat.me.1 ≡ []) };
}

impl CellPass {
    fn into_seat(self) -> Holder
        ensures table { result.table_id ≡ self.table }
        ensures view { result.me ≡ (self.view, []) }
        ensures deal { self.view.deal ≡ [] }
    {
        let CellPass { seat, share: _ } = self;
        seat
    }
}

/// The words of cells without an update, behind the spare word.
fn first_words(alloc: Global, init: &[u32]) -> Result<Vec<u64>, NoMemory>
    ensures { IfOk result (λ words. words.items ≡ words_of init.now) }
{
    let mut words = Vec::new(alloc);
    words.push(0).map_err(|_| NoMemory)?;
    for bits in init {
        words.push(word(*bits, 0)).map_err(|_| NoMemory)?;
    }
    Ok(words)
}

/// The final bits of all cells, from their words.
fn bits_of(alloc: Global, closed: &Closed<(), Global>) -> Result<Vec<u32>, NoMemory>
    requires full { IsFull closed.now.words }
    requires spare { 0 < slots_len closed.now.words }
    ensures { IfOk result (λ finals. AreBitsOf (slots_items closed.now.words) finals.items) }
{
    let mut finals = Vec::new(alloc);
    for at in 1..closed.words.len() {
        finals
            .push(seen(closed.word(at)).bits)
            .map_err(|_| NoMemory)?;
    }
    Ok(finals)
}

impl Cells {
    /// Cells with these first bits, and a pass for each share.
    pub fn new(
        alloc: Global,
        init: &[u32],
        shares: &[u32],
    ) -> Result<(Cells, Vec<CellPass>), NoMemory>
        requires { sum shares.now < 2 ^ 32 }
        ensures init { IfOk result (λ made. made.0.init ≡ init.now) }
        ensures shares { IfOk result (λ made. made.0.shares ≡ shares.now) }
        ensures passes { IfOk result (λ made.
            made.1.items ≡ map (new_pass made.0.table init.now) shares.now) }
    {
        let words = first_words(alloc, init)?;
        let start = Start {
            init: Vec::from_slice(alloc, init).map_err(|_| NoMemory)?,
            shares: Vec::from_slice(alloc, shares).map_err(|_| NoMemory)?,
        };
        let (table, root) = Table::of_words(alloc, words.as_slice(), &start).map_err(|_| NoMemory)?;
        let cells = Cells { table };
        let passes = cells.deal_all(alloc, root, shares)?;
        Ok((cells, passes))
    }

    /// A pass for each share, from the seat that has all of them to deal.
    fn deal_all(
        &self,
        alloc: Global,
        mut root: Holder,
        shares: &[u32],
    ) -> Result<Vec<CellPass>, NoMemory>
        requires table { root.table_id ≡ self.now.table }
        requires words { length self.now.init + 1 ≡ self.now.table.words }
        requires view { root.me ≡ (first_view self.now.init shares.now, []) }
        ensures { IfOk result (λ passes.
            passes.items ≡ map (new_pass self.now.table self.now.init) shares.now) }
    {
        let mut passes = Vec::new(alloc);
        for share in shares {
            let seat = self.deal(&mut root);
            passes
                .push(CellPass {
                    seat,
                    share: *share,
                })
                .map_err(|_| NoMemory)?;
        }
        Ok(passes)
    }

    /// A seat at these cells, with what the pass knows.
    pub fn seat(&self, pass: CellPass) -> CellSeat<'_>
        requires { pass.table ≡ self.now.table }
        ensures { result ≡ record { table = pass.table; view = pass.view; moves = 0 } }
    {
        let CellPass { seat, share } = pass;
        CellSeat::new(self, seat, share)
    }

    /// The final bits of all cells, once all that was given out is back. The updates of all passes are one history of
    /// each cell, and what was seen through them is so in it.
    pub fn close(self, alloc: Global, passes: Vec<CellPass>) -> Result<Vec<u32>, NoMemory>
        requires table { All (λ pass. pass.table ≡ self.table) passes.items }
        requires whole { sum_by held (views_of passes.items) ≡ sum self.shares }
        ensures { IfOk result (λ finals. IsHistory self.init finals.items (views_of passes.items)) }
    {
        let closed = self.shut(passes);
        let finals = bits_of(alloc, &closed);
        closed.free();
        finals
    }

    /// One seat that has what all these passes have, where there is one.
    fn gathered(&self, mut passes: Vec<CellPass>) -> Option<Holder>
        requires { All (λ pass. pass.table ≡ self.now.table) passes.items }
        ensures none { IfNone result (passes.items ≡ []) }
        ensures table { IfSome result (λ seat. seat.table_id ≡ self.now.table) }
        ensures view { IfSome result (λ seat. Gathers (views_of passes.items) seat.me.0) }
        ensures free { IfSome result (λ seat. seat.me.1 ≡ []) }
    {
        let mut all = passes.pop()?.into_seat();
        while let Some(pass) = passes.pop() {
            self.take_in(&mut all, pass.into_seat());
        }
        Some(all)
    }

    /// The words at the end, which tell the last bits of each cell's history.
    fn shut(self, passes: Vec<CellPass>) -> Closed<(), Global>
        requires table { All (λ pass. pass.table ≡ self.table) passes.items }
        requires whole { sum_by held (views_of passes.items) ≡ sum self.shares }
        ensures full { IsFull result.words }
        ensures words { 0 < slots_len result.words }
        ensures slots { slots_len result.slots ≡ 0 }
        ensures histories { (finals : List ℕ) → AreBitsOf (slots_items result.words) finals →
            IsHistory self.init finals (views_of passes.items) }
    {
        let seat = self.gathered(passes);
        let Cells { table } = self;
        match seat {
            None => table.close(),
            Some(seat) => table.close_with(seat),
        }
    }
}
