//! A seat at the cells: the memory of one rank.
ghost use Rattle.std.specs.Prelude.{◌≡◌, []};
ghost use Rattle.cell_words.specs.Holders.{face_of, knows as known_by, IsWhole};

use crate::cells::{CellPass, Cells};
use crate::notes::CellNote;
use crate::shared_steps::Holder;
use cell_face::{Memory, Moved, Seen};
use std::marker::Model;

/// One rank's way to the cells.
#[derive(Drop)]
pub struct CellSeat<'c> {
    cells: &'c Cells,
    seat: Holder,
    share: u32,
    moves: u64,
}

impl<'c> Model for CellSeat<'c> {
    ghost use Rattle.std.specs.Prelude.{◌≡◌, []};
    ghost use Rattle.cell_words.specs.Holders.{Seated, IsWhole};

    ghost Value = { Seated };

    ghost view = { λ it. record {
      table = it.seat.table_id;
      view = it.seat.me.0;
      moves = it.moves;
    } };

    ghost invariant = { λ it. let view = it.seat.me.0 in
        IsWhole it.seat.table_id view.lows × (it.share ≡ view.share) × (view.deal ≡ [])
        × (it.seat.me.1 ≡ []) × (it.seat.table_id ≡ it.cells.now.table) };
}

impl<'c> CellSeat<'c> {
    pub(crate) fn new(cells: &'c Cells, seat: Holder, share: u32) -> CellSeat<'c>
        requires tied { seat.table_id ≡ cells.now.table }
        requires whole { IsWhole seat.table_id seat.me.0.lows }
        requires rights { (share ≡ seat.me.0.share) × (seat.me.0.deal ≡ []) × (seat.me.1 ≡ []) }
        ensures { result ≡ record { table = seat.table_id; view = seat.me.0; moves = 0 } }
    {
        CellSeat {
            cells,
            seat,
            share,
            moves: 0,
        }
    }

    /// The pass that the seat was.
    pub fn into_pass(self) -> CellPass
        ensures { result ≡ record { table = self.entry.table; view = self.entry.view } }
    {
        let CellSeat {
            cells: _,
            seat,
            share,
            moves: _,
        } = self;
        CellPass { seat, share }
    }
}

impl<'c> Memory for CellSeat<'c> {
    type Note = CellNote<'c>;

    ghost face = { face_of };

    ghost knows = { known_by };

    fn load(&mut self, cell: u32) -> Seen {
        self.cells.look(&mut self.seat, cell)
    }

    fn add(&mut self, cell: u32, x: u32) -> Seen {
        let seen = self.cells.raise(&mut self.seat, cell, x);
        self.share -= 1;
        seen
    }

    fn attempt(&mut self, cell: u32, expected: Seen, new: u32) -> Result<u32, Moved> {
        match self.cells.exchange(&mut self.seat, cell, expected, new) {
            Ok(()) => {
                self.share -= 1;
                Ok(expected.place)
            }
            Err(seen) => {
                self.moves = self.moves.saturating_add(1);
                Err(Moved { seen })
            }
        }
    }

    fn share(&self) -> u32 {
        self.share
    }

    fn note(&mut self) -> CellNote<'c> {
        let seat = self.cells.copy_lows(&mut self.seat);
        CellNote::new(self.cells, seat)
    }

    fn meet(&mut self, note: CellNote<'c>) {
        self.cells.take_in(&mut self.seat, note.into_seat());
    }
}
