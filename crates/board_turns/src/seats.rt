//! A turn round a board and its seats, as types.
use cell_face::Token;
use std::marker::Model;
use sync_board::Board;
use turn_lock::{Turn, TurnSeat};

/// A turn round a board. Threads share it by reference.
#[derive(Drop)]
pub struct BoardTurn<N: Token> {
    pub(crate) turn: Turn<Board<N>>,
}

impl<N: Token> Model for BoardTurn<N> {
    ghost use Rattle.sync_board.specs.Boards.{before_entries};
    ghost use Rattle.turn_lock.specs.Seats.{name_of, origin_of, seats_of};
    ghost use Rattle.board_turns.specs.Places.{SharedTurn};

    ghost Value = { SharedTurn };

    ghost view = { λ it. record {
      round = record { table = name_of it.turn; first = origin_of before_entries it.turn };
      seats = seats_of it.turn;
    } };
}

/// A seat at a turn round a board. It has no bytes.
#[derive(Drop)]
pub struct BoardSeat<N: Token> {
    pub(crate) seat: TurnSeat<Board<N>>,
}

impl<N: Token> Model for BoardSeat<N> {
    ghost use Rattle.board_turns.specs.Places.{Place};
    ghost use Rattle.board_turns.specs.Seats.{place_of, IsSeat};

    ghost Value = { Place };

    ghost view = { λ it. place_of it.seat };

    ghost invariant = { λ it. IsSeat it.seat };
}
