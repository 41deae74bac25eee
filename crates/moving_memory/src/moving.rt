//! A seat at cells that another seat changes too.
ghost use Rattle.std.specs.Prelude.{◌≡◌, ◌<◌, length};
ghost use Rattle.cell_words.specs.Holders.{face_of, knows as known_by};

use cell_face::{Memory, Moved, Seen};
use cell_words::{CellNote, CellSeat};
use std::marker::Model;

/// One rank's way to cells. Before an attempt another seat adds to the cell where a list says so, and as long as that
/// seat has a share: then the attempt finds that the cell has moved.
///
/// Contracts see the rank's own seat.
#[derive(Drop)]
pub struct MovingMemory<'c> {
    own: CellSeat<'c>,
    other: CellSeat<'c>,
    /// For each attempt to come, the next one last, whether the other seat's update comes before it.
    late: Vec<bool>,
}

impl<'c> Model for MovingMemory<'c> {
    ghost use Rattle.std.specs.Prelude.{◌≡◌, length};
    ghost use Rattle.cell_words.specs.Holders.{Seated};

    ghost Value = { Seated };

    ghost view = { λ memory. memory.own };

    ghost invariant = { λ memory. length memory.other.view.lows ≡ length memory.own.view.lows };
}

impl<'c> MovingMemory<'c> {
    /// A memory of the first seat. `late` says for each attempt, the last one first, whether an update of the other seat
    /// comes before it; none comes before the attempts after these.
    pub fn new(own: CellSeat<'c>, other: CellSeat<'c>, late: Vec<bool>) -> MovingMemory<'c>
        requires { length other.view.lows ≡ length own.view.lows }
        ensures { result ≡ own.entry }
    {
        MovingMemory { own, other, late }
    }

    /// The update that comes before the next attempt, where there is one.
    fn come_between(&mut self, cell: u32)
        requires { cell < length self.old.view.lows }
        ensures { self.new ≡ self.old }
    {
        if let Some(true) = self.late.pop() {
            if self.other.share() > 0 {
                self.other.add(cell, 1);
            }
        }
    }
}

impl<'c> Memory for MovingMemory<'c> {
    type Note = CellNote<'c>;

    ghost face = { face_of };

    ghost knows = { known_by };

    fn load(&mut self, cell: u32) -> Seen {
        self.own.load(cell)
    }

    fn add(&mut self, cell: u32, x: u32) -> Seen {
        self.own.add(cell, x)
    }

    fn attempt(&mut self, cell: u32, expected: Seen, new: u32) -> Result<u32, Moved> {
        self.come_between(cell);
        self.own.attempt(cell, expected, new)
    }

    fn share(&self) -> u32 {
        self.own.share()
    }

    fn note(&mut self) -> CellNote<'c> {
        self.own.note()
    }

    fn meet(&mut self, note: CellNote<'c>) {
        self.own.meet(note);
    }
}
