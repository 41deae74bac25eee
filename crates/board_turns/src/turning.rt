//! A turn round a board, as far as contracts see it.
ghost use Rattle.std.specs.Prelude.{◌≡◌, true, false, None, IfSome, is_some};
ghost use mathlib.Core.List.{IsPrefix};
ghost use Rattle.sync_board.specs.Boards.{rank_of};
ghost use Rattle.turn_lock.specs.Lists.{longer, AddsOwn};
ghost use Rattle.board_turns.specs.Places.{with_entries, AddsOthers, IsSameSeat};

use cell_face::Token;
use std::sync::Wait;
use sync_board::Board;

/// A turn that goes round a board. A seat at it has a number, and knows the entries as it last had them.
///
/// The number of a seat is the rank whose entries it puts. None of these calls takes memory.
pub trait Turning<N: Token> {
    ghost use Rattle.board_turns.specs.Places.{Round, Place};

    /// A seat at the turn.
    type Seat: Drop + Send;

    /// Which turn it is, and its board as it was before the first entry.
    ghost round: { Self → Round };

    /// The plain data of a seat.
    ghost place: { Self.Seat → Place };

    /// Waits for the turn, and takes the board. Since the seat last had it, only other ranks put entries.
    fn take<R: Wait>(&self, seat: &mut Self::Seat, rt: &R) -> Board<N>
        requires turn { (place seat.old).turn ≡ round self.now }
        requires rests { (place seat.old).holds ≡ false }
        ensures same { IsSameSeat (place seat.old) (place seat.new) }
        ensures holds { (place seat.new).holds ≡ true }
        ensures board { result ≡ with_entries (round self.now).first (place seat.new).known }
        ensures others { AddsOthers (place seat.old).number (place seat.old).known
            (place seat.new).known };

    /// Gives the board back, to which this seat added entries of its number or none, and hands the turn on.
    fn give(&self, seat: &mut Self::Seat, board: &mut Option<Board<N>>)
        requires turn { (place seat.old).turn ≡ round self.now }
        requires holds { (place seat.old).holds ≡ true }
        requires some { is_some board.old ≡ true }
        requires board { IfSome board.old (λ given.
            given ≡ with_entries (round self.now).first given.entries) }
        requires own { IfSome board.old (λ given.
            AddsOwn rank_of (place seat.old).number (place seat.old).known given.entries) }
        ensures same { IsSameSeat (place seat.old) (place seat.new) }
        ensures rests { (place seat.new).holds ≡ false }
        ensures knows { IfSome board.old (λ given. (place seat.new).known ≡ given.entries) }
        ensures given { board.new ≡ None };

    /// Learns what another seat knows, without waiting: afterwards this seat knows the longer of the two lists.
    fn catch_up(&self, seat: &mut Self::Seat, other: &mut Self::Seat)
        requires turn { (place seat.old).turn ≡ round self.now }
        requires rests { (place seat.old).holds ≡ false }
        requires other_turn { (place other.old).turn ≡ round self.now }
        requires other_rests { (place other.old).holds ≡ false }
        ensures same { IsSameSeat (place seat.old) (place seat.new) }
        ensures rests { (place seat.new).holds ≡ false }
        ensures knows { (place seat.new).known ≡
            longer (place seat.old).known (place other.old).known }
        ensures others { AddsOthers (place seat.old).number (place seat.old).known
            (place seat.new).known }
        ensures known { IsPrefix (place other.old).known (place seat.new).known }
        ensures other_stays { place other.new ≡ place other.old };
}
