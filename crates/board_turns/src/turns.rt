//! What a turn round a board does.
ghost use Rattle.std.specs.Prelude.{◌≡◌, ◌<◌, ℕ, [], false, length, slice_get, Some, All, IfOk};
ghost use mathlib.Core.List.{IsPrefix};
ghost use Rattle.sync_board.specs.Boards.{rank_of};
ghost use Rattle.board_turns.specs.Places.{new_place};

use crate::seats::{BoardSeat, BoardTurn};
use crate::turning::Turning;
use cell_face::Token;
use rma_types::NoMemory;
use std::alloc::Global;
use std::sync::Wait;
use sync_board::Board;
use turn_lock::Turn;

impl<N: Token> BoardTurn<N> {
    /// A turn round this board, which has no entry, and its seats: their numbers are their places in the list.
    pub fn new(
        alloc: Global,
        board: Board<N>,
        seats: u32,
    ) -> Result<(BoardTurn<N>, Vec<BoardSeat<N>>), NoMemory>
        requires seats { 0 < seats }
        requires empty { board.entries ≡ [] }
        ensures first { IfOk result (λ made. made.0.round.first ≡ board) }
        ensures seats { IfOk result (λ made. made.0.seats ≡ seats) }
        ensures count { IfOk result (λ made. length made.1.items ≡ seats) }
        ensures new { IfOk result (λ made. (k : ℕ) → k < seats →
            slice_get made.1.items k ≡ Some (new_place made.0.round k)) }
    {
        let (turn, free) = Turn::new(alloc, board, seats)?;
        let mut places = Vec::with_capacity(alloc, seats as usize).map_err(|_| NoMemory)?;
        for seat in free {
            places.push_reserved(BoardSeat { seat });
        }
        Ok((BoardTurn { turn }, places))
    }

    /// Ends the turn with all its seats, and hands the board back. Each of its entries is of a rank that is the number of
    /// one of the seats, and they begin with those that a seat knows.
    pub fn close(self, alloc: Global, seats: Vec<BoardSeat<N>>) -> Result<Board<N>, NoMemory>
        requires turn { All (λ seat. seat.turn ≡ self.round) seats.items }
        requires rest { All (λ seat. seat.holds ≡ false) seats.items }
        requires count { length seats.items ≡ self.seats }
        ensures owners { IfOk result (λ board.
            All (λ one. rank_of one < self.seats) board.entries) }
        ensures known { IfOk result (λ board.
            All (λ seat. IsPrefix seat.known board.entries) seats.items) }
    {
        let mut places = Vec::with_capacity(alloc, seats.len()).map_err(|_| NoMemory)?;
        for seat in seats {
            places.push_reserved(seat.seat);
        }
        Ok(self.turn.close(places))
    }
}

impl<N: Token + Send> Turning<N> for BoardTurn<N> {
    type Seat = BoardSeat<N>;

    ghost round = { λ turn. turn.round };

    ghost place = { λ seat. seat };

    fn take<R: Wait>(&self, seat: &mut BoardSeat<N>, rt: &R) -> Board<N> {
        self.turn.take(&mut seat.seat, rt)
    }

    fn give(&self, seat: &mut BoardSeat<N>, board: &mut Option<Board<N>>) {
        match board.take() {
            Some(board) => self.turn.give(&mut seat.seat, board),
            None => unreachable!(),
        }
    }

    fn catch_up(&self, seat: &mut BoardSeat<N>, other: &mut BoardSeat<N>) {
        self.turn.catch_up(&mut seat.seat, &mut other.seat);
    }
}
