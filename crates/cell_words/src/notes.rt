//! A note of the cells: the lowest places that one rank hands to another.
ghost use Rattle.std.specs.Prelude.{◌≡◌, []};
ghost use Rattle.cell_words.specs.Views.{bare};
ghost use Rattle.cell_words.specs.Holders.{IsWhole};

use crate::cells::Cells;
use crate::shared_steps::Holder;
use cell_face::Token;
use std::marker::Model;

/// The lowest places of all cells, as a seat had them.
#[derive(Drop)]
pub struct CellNote<'c> {
    cells: &'c Cells,
    seat: Holder,
}

impl<'c> Model for CellNote<'c> {
    ghost use Rattle.std.specs.Prelude.{◌≡◌, []};
    ghost use Rattle.cell_words.specs.Views.{bare};
    ghost use Rattle.cell_words.specs.Holders.{Noted, IsWhole};

    ghost Value = { Noted };

    ghost view = { λ note. record { table = note.seat.table_id; lows = note.seat.me.0.lows } };

    ghost invariant = { λ note. let lows = note.seat.me.0.lows in
        IsWhole note.seat.table_id lows × (note.seat.me ≡ (bare lows, []))
        × (note.seat.table_id ≡ note.cells.now.table) };
}

impl<'c> CellNote<'c> {
    pub(crate) fn new(cells: &'c Cells, seat: Holder) -> CellNote<'c>
        requires table { seat.table_id ≡ cells.now.table }
        requires whole { IsWhole seat.table_id seat.me.0.lows }
        requires bare { seat.me ≡ (bare seat.me.0.lows, []) }
        ensures { result ≡ record { table = seat.table_id; lows = seat.me.0.lows } }
    {
        CellNote { cells, seat }
    }

    pub(crate) fn into_seat(self) -> Holder
        ensures table { result.table_id ≡ self.entry.table }
        ensures view { result.me ≡ (bare self.entry.lows, []) }
        ensures whole { IsWhole result.table_id self.entry.lows }
    {
        let CellNote { cells: _, seat } = self;
        seat
    }
}

impl<'c> Token for CellNote<'c> {
    ghost use Rattle.std.specs.Prelude.{Some};
    ghost use Rattle.cell_words.specs.Holders.{name_of};

    ghost front = { λ note. Some note.lows };

    ghost origin = { λ note. name_of note.table };

    fn fork(&mut self) -> CellNote<'c> {
        let seat = self.cells.copy_lows(&mut self.seat);
        CellNote::new(self.cells, seat)
    }

    fn merge(&mut self, other: CellNote<'c>) {
        self.cells.take_in(&mut self.seat, other.into_seat());
    }
}
