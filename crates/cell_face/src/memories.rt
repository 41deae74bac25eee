//! Memories of cells.
ghost use Rattle.std.specs.Prelude.{◌≡◌, ◌+◌, ◌%◌, ◌^◌, ◌<◌, ◌≤◌, IfOk, IfErr, MatchResult};
ghost use Rattle.cell_face.specs.Faces.{cell_count, IsToldAt, Looks, Updates, Moves, Gives, Takes, Keeps};

use crate::tokens::Token;
use call_rules::Cell as Seen;

/// The answer of an attempt on a cell that had moved on: its state then.
#[derive(Clone, Copy, Debug, PartialEq, Eq)]
pub struct Moved {
    /// The bits of the cell, and its place, which is above that of the state that was expected.
    pub seen: Seen,
}

/// A memory of cells of 4 bytes, as one rank uses it.
///
/// Each cell has bits and a place, which is the number of its updates so far (MPI 3.1, section 11.7.1: the updates of
/// one location follow each other). Several ranks may use the same cells, so what was seen can be old; a cell's lowest
/// place says what can no longer be seen. No call takes memory or waits.
pub trait Memory {
    ghost use Rattle.std.specs.Prelude.{ℕ};
    ghost use Rattle.call_rules.specs.declared.cells.Cell.{Cell};
    ghost use Rattle.cell_face.specs.Faces.{Face};

    /// What a rank hands over with an entry.
    type Note: Token;

    /// The plain data of the memory.
    ghost face: { Self → Face };

    /// The state is one that the cell has, or had.
    ghost knows: { Self → ℕ → Cell → Type 0 };

    /// The state of a cell.
    fn load(&mut self, cell: u32) -> Seen
        requires { cell < cell_count (face self.old) }
        ensures looks { Looks (face self.old) (face self.new) cell result }
        ensures found { knows self.new cell result }
        ensures known { Keeps (knows self.old) (knows self.new) };

    /// Adds `x` to the whole cell modulo 2^32, as one update, and gives the state before it.
    fn add(&mut self, cell: u32, x: u32) -> Seen
        requires cell { cell < cell_count (face self.old) }
        requires share { 1 ≤ (face self.old).share }
        ensures updates { let sum = (result.bits + x) % 2 ^ 32 in
            Updates (face self.old) (face self.new) cell result sum }
        ensures told_state { IsToldAt (face self.old) cell result }
        ensures found { knows self.new cell result }
        ensures known { Keeps (knows self.old) (knows self.new) };

    /// Writes `new` to a cell whose place is still that of `expected`, and gives that place.
    fn attempt(&mut self, cell: u32, expected: Seen, new: u32) -> Result<u32, Moved>
        requires cell { cell < cell_count (face self.old) }
        requires share { 1 ≤ (face self.old).share }
        requires expected { knows self.old cell expected }
        ensures place { IfOk result (λ place. place ≡ expected.place) }
        ensures cases { MatchResult result
            (λ _. Updates (face self.old) (face self.new) cell expected new)
            (λ moved. Moves (face self.old) (face self.new) cell expected moved.seen) }
        ensures found { IfErr result (λ moved. knows self.new cell moved.seen) }
        ensures known { Keeps (knows self.old) (knows self.new) };

    /// How many updates may still be made.
    fn share(&self) -> u32
        ensures { result ≡ (face self.now).share };

    /// A token that carries the lowest places as they are now.
    fn note(&mut self) -> Self::Note
        ensures gives { Gives (face self.old) (face self.new) (Self.Note.front result)
            (Self.Note.origin result) }
        ensures known { Keeps (knows self.old) (knows self.new) };

    /// Raises the lowest places to those of the token.
    fn meet(&mut self, note: Self::Note)
        requires { Self.Note.origin note ≡ (face self.old).name }
        ensures takes { Takes (face self.old) (face self.new) (Self.Note.front note) }
        ensures known { Keeps (knows self.old) (knows self.new) };
}
