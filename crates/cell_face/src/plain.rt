//! The memory that one thread uses alone.
ghost use Rattle.std.specs.Prelude.{◌≡◌, ◌+◌, ◌%◌, ◌^◌, ◌<◌, ◌≤◌, length, map, slice_set, IfOk, MatchResult};
ghost use Rattle.call_rules.specs.Touches.{cell_at};
ghost use Rattle.cell_face.specs.PlainCells.{plain_face, IsPresentOrPast};

use crate::memories::{Memory, Moved};
use crate::tokens::NoNote;
use call_rules::Cell as Seen;
use rma_types::NoMemory;
use std::alloc::Global;
use std::marker::Model;

/// How many updates a new memory takes: 4,294,967,295.
const SHARE: u32 = u32::MAX;

/// Cells of 4 bytes that one thread uses alone, so that the state of each is always known.
#[derive(Debug, Drop)]
pub struct PlainMemory {
    cells: Vec<Seen>,
    share: u32,
    moves: u64,
}

impl Model for PlainMemory {
    ghost use Rattle.std.specs.Prelude.{◌+◌, ◌≤◌};
    ghost use Rattle.std.specs.List.{AllByRecursion};
    ghost use Rattle.call_rules.specs.declared.cells.Cell.{Cell};
    ghost use Rattle.cell_face.specs.PlainCells.{PlainCells};

    ghost Value = { PlainCells };

    ghost view = { λ memory. record { cells = memory.cells.items; share = memory.share; moves = memory.moves } };

    ghost invariant = { λ memory.
        AllByRecursion (λ (cell : Cell). cell.place + memory.share ≤ 4294967295) memory.cells.items };
}

impl PlainMemory {
    ghost use Rattle.std.specs.Prelude.{ℕ};
    ghost use Rattle.call_rules.specs.declared.cells.Cell.{Cell};

    /// One cell for each number of `init`, with these bits, at place 0.
    pub fn new(alloc: Global, init: &[u32]) -> Result<PlainMemory, NoMemory>
        ensures cells { IfOk result (λ memory.
            memory.cells ≡ map (λ (bits : ℕ). record { bits = bits; place = 0 }) init.now) }
        ensures share { IfOk result (λ memory. memory.share ≡ 4294967295) }
        ensures moves { IfOk result (λ memory. memory.moves ≡ 0) }
    {
        let cells = init
            .iter()
            .map(|bits| Seen {
                bits: *bits,
                place: 0,
            })
            .collect(alloc)
            .map_err(|_| NoMemory)?;
        Ok(PlainMemory {
            cells,
            share: SHARE,
            moves: 0,
        })
    }

    /// The bits of a cell.
    pub fn bits(&self, cell: u32) -> u32
        requires { cell < length self.now.cells }
        ensures { result ≡ (cell_at self.now.cells cell).bits }
    {
        self.at(cell).bits
    }

    fn at(&self, cell: u32) -> Seen
        requires { cell < length self.now.cells }
        ensures { result ≡ cell_at self.now.cells cell }
    {
        self.cells[cell as usize]
    }

    /// Writes to a cell: one update more.
    fn write(&mut self, cell: u32, bits: u32)
        requires cell { cell < length self.old.cells }
        requires share { 1 ≤ self.old.share }
        ensures cells { self.new.cells ≡ slice_set self.old.cells cell
            (record { bits = bits; place = (cell_at self.old.cells cell).place + 1 }) }
        ensures share { self.new.share + 1 ≡ self.old.share }
        ensures moves { self.new.moves ≡ self.old.moves }
    {
        let cells = self.cells.as_mut_slice();
        let place = cells[cell as usize].place + 1;
        cells[cell as usize] = Seen { bits, place };
        self.share -= 1;
    }
}

impl Memory for PlainMemory {
    type Note = NoNote;

    ghost face = { plain_face };

    ghost knows = { λ memory. IsPresentOrPast memory.cells };

    fn load(&mut self, cell: u32) -> Seen {
        self.at(cell)
    }

    fn add(&mut self, cell: u32, x: u32) -> Seen {
        let seen = self.at(cell);
        self.write(cell, seen.bits.wrapping_add(x));
        seen
    }

    fn attempt(&mut self, cell: u32, expected: Seen, new: u32) -> Result<u32, Moved> {
        let seen = self.at(cell);
        if seen.place != expected.place {
            self.moves = self.moves.saturating_add(1);
            return Err(Moved { seen });
        }
        self.write(cell, new);
        Ok(seen.place)
    }

    fn share(&self) -> u32 {
        self.share
    }

    fn note(&mut self) -> NoNote {
        NoNote
    }

    fn meet(&mut self, _note: NoNote) {}
}
