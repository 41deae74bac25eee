//! One entry of a rank at the board, with the tokens that go with it (MPI 3.1, sections 11.5 and 11.7).
ghost use Rattle.std.specs.Prelude.{◌≡◌, ◌<◌, IfOk, OnErr};
ghost use Rattle.cell_face.specs.Faces.{Keeps};
ghost use Rattle.sync_board.specs.Boards.{MayAsk};
ghost use Rattle.rank_engine.specs.Entering.{IsAnswered, IsHandedOver};

use crate::tokens::{gift_of, meet};
use cell_face::Memory;
use rma_types::{Call, Class, NoMemory, Step};
use sync_board::{Board, Decided};
use window_regions::Shape;

/// What the board answered, when all tokens are met.
#[derive(Debug, Drop)]
pub enum Answer {
    /// The entry stands at this place; a creation's Leave makes the window.
    Entered { place: u32, made: Option<Shape> },
    /// The entry is not yet possible.
    NotYetEntered,
    /// The entry is refused, after so many entries.
    Refused { class: Class, seen: u32 },
}

/// Asks the board for the next entry of a rank. The token that is given with it, where one is, is met again where the
/// entry is not put; what the entry gains is met.
#[tactic(auto, using(crate::proofs::Unwritten::handed_twice))]
pub fn ask<M: Memory>(
    notes: &mut M,
    board: &mut Board<M::Note>,
    rank: u8,
    number: u32,
    call: &Call,
    step: Step,
) -> Result<Answer, NoMemory>
    requires asked { MayAsk board.old.ranks board.old.layout
        (record { rank = rank; number = number; call = call.now; step = step }) }
    requires number { number < 65536 }
    requires name { board.old.name ≡ (M.face notes.old).name }
    ensures answer { IfOk result (λ answer. IsAnswered
        (record { rank = rank; number = number; call = call.now; step = step })
        answer board.old board.new (M.face notes.old) (M.face notes.new)) }
    ensures handed { IsHandedOver (M.face notes.old) (M.face notes.new) }
    ensures known { Keeps (M.knows notes.old) (M.knows notes.new) }
    ensures unchanged { OnErr result (board.new ≡ board.old) }
{
    let gift = gift_of(notes, call, step);
    match board.decide(rank, number, call, step, gift)? {
        Decided::Entered {
            place,
            gained,
            made,
        } => {
            meet(notes, gained);
            Ok(Answer::Entered { place, made })
        }
        Decided::NotYet { gift } => {
            meet(notes, gift);
            Ok(Answer::NotYetEntered)
        }
        Decided::Refused { class, seen, gift } => {
            meet(notes, gift);
            Ok(Answer::Refused { class, seen })
        }
    }
}
