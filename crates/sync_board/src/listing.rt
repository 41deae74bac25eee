//! The board as a value that a turn goes round.
use crate::board::Board;
use cell_face::Token;
use listed_values::Listed;
use rma_types::{Call, Step};
use std::collections::LinkedList;
use std::marker::Model;

/// An entry of the board, with the front of its gift. No value of it is made: it exists in proofs alone.
pub struct GivenEntry {
    pub rank: u8,
    pub number: u32,
    pub call: Call,
    pub step: Step,
    pub gift: Option<Option<LinkedList<u32>>>,
}

impl Model for GivenEntry {
    ghost use Rattle.kept_rows.specs.Gifts.{Given};

    ghost Value = { Given };

    ghost view = { λ one. record {
      row = record { rank = one.rank; number = one.number; call = one.call; step = one.step };
      gift = one.gift;
    } };
}

/// An entry belongs to its rank. What never changes of a board is what it was before its first entry.
impl<N: Token> Listed for Board<N> {
    ghost use Rattle.sync_board.specs.Boards.{rank_of, before_entries};

    type Entry = GivenEntry;

    type Origin = Board<N>;

    ghost list = { λ board. board.entries };

    ghost owner = { rank_of };

    ghost origin = { before_entries };
}
