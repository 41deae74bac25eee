//! What is done in the turns of a seat.
ghost use Rattle.std.specs.Prelude.{◌≡◌, ◌<◌, ◌^◌, ℕ, All, length, slice_index_or};
ghost use Rattle.turn_lock.specs.Seats.{number_of, IsIdle};
ghost use Rattle.turn_tests.specs.Places.{place_of};

use crate::marks::{Mark, Marks};
use std::sync::Wait;
use std::thread::{Threads, for_each_mut};
use turn_lock::{Turn, TurnSeat};

/// One turn, in which the seat of this number adds a mark or none.
pub fn play<R: Wait>(turn: &Turn<Marks>, seat: &mut TurnSeat<Marks>, rt: &R, mark: Mark, adds: bool)
    requires idle { IsIdle place_of turn.now seat.old }
    requires number { number_of seat.old ≡ mark.seat }
    ensures idle { IsIdle place_of turn.now seat.new }
    ensures number { number_of seat.new ≡ number_of seat.old }
{
    let mut marks = turn.take(seat, rt);
    if adds {
        let _added = marks.add(mark);
    }
    turn.give(seat, marks);
}

/// Turns of the seat of this number, in each of which it adds a mark or none.
pub fn play_often<R: Wait>(
    turn: &Turn<Marks>,
    seat: &mut TurnSeat<Marks>,
    rt: &R,
    number: u32,
    turns: u32,
)
    requires idle { IsIdle place_of turn.now seat.old }
    requires number { number_of seat.old ≡ number }
    ensures idle { IsIdle place_of turn.now seat.new }
    ensures number { number_of seat.new ≡ number_of seat.old }
{
    for at in 0..turns {
        let mark = Mark {
            seat: number,
            turn: at,
        };
        play(turn, seat, rt, mark, adds(number, at));
    }
}

/// The seat of one number has one turn, in which it adds a mark or none.
pub fn play_one<R: Threads + Wait + Sync>(
    rt: &R,
    turn: &Turn<Marks>,
    seats: &mut [TurnSeat<Marks>],
    who: usize,
    adds: bool,
)
    requires few { length seats.old < 2 ^ 32 }
    requires idle { All (IsIdle place_of turn.now) seats.old }
    requires numbers { (k : ℕ) (seat : _) → k < length seats.old
        → number_of (slice_index_or seats.old k seat) ≡ k }
    ensures idle { All (IsIdle place_of turn.now) seats.new }
    ensures numbers { (k : ℕ) (seat : _) → k < length seats.new
        → number_of (slice_index_or seats.new k seat) ≡ k }
    ensures count { length seats.new ≡ length seats.old }
{
    for_each_mut(
        rt,
        seats,
        1,
        &|i: usize, seat: &mut TurnSeat<Marks>|
            requires { IsIdle place_of turn.now seat.old × (number_of seat.old ≡ i) × (i < 2 ^ 32) }
            ensures { IsIdle place_of turn.entry.now seat.new × (number_of seat.new ≡ i) }
        { play_if(turn, seat, rt, i as u32, i == who, adds) },
    );
}

fn play_if<R: Wait>(
    turn: &Turn<Marks>,
    seat: &mut TurnSeat<Marks>,
    rt: &R,
    number: u32,
    plays: bool,
    adds: bool,
)
    requires idle { IsIdle place_of turn.now seat.old }
    requires number { number_of seat.old ≡ number }
    ensures idle { IsIdle place_of turn.now seat.new }
    ensures number { number_of seat.new ≡ number_of seat.old }
{
    if plays {
        let mark = Mark {
            seat: number,
            turn: 0,
        };
        play(turn, seat, rt, mark, adds);
    }
}

/// All seats play, on so many threads.
pub fn play_all<R: Threads + Wait + Sync>(
    rt: &R,
    turn: &Turn<Marks>,
    seats: &mut [TurnSeat<Marks>],
    threads: usize,
    turns: u32,
)
    requires threads { 0 < threads }
    requires few { length seats.old < 2 ^ 32 }
    requires idle { All (IsIdle place_of turn.now) seats.old }
    requires numbers { (k : ℕ) (seat : _) → k < length seats.old
        → number_of (slice_index_or seats.old k seat) ≡ k }
    ensures idle { All (IsIdle place_of turn.now) seats.new }
    ensures count { length seats.new ≡ length seats.old }
{
    for_each_mut(
        rt,
        seats,
        threads,
        &|i: usize, seat: &mut TurnSeat<Marks>|
            requires { IsIdle place_of turn.now seat.old × (number_of seat.old ≡ i) × (i < 2 ^ 32) }
            ensures { IsIdle place_of turn.entry.now seat.new }
        { play_often(turn, seat, rt, i as u32, turns) },
    );
}

/// Whether a seat adds a mark in a turn: in about two of three.
pub fn adds(seat: u32, turn: u32) -> bool {
    seat.wrapping_mul(31).wrapping_add(turn.wrapping_mul(17)) % 3 != 0
}

/// Whether each seat's marks are those of the turns in which it adds one, in order, as far as they go.
pub fn are_in_order(marks: &[Mark], turns: u32) -> bool {
    let mut next = [0u32; 16];
    for mark in marks {
        let seat = (mark.seat % 16) as usize;
        if (next[seat]..turns).find(|at| adds(mark.seat, *at)) != Some(mark.turn) {
            return false;
        }
        next[seat] = mark.turn.saturating_add(1);
    }
    true
}

/// How many marks the seats add in so many turns.
pub fn all_marks(seats: u32, turns: u32) -> usize {
    let mut count = 0usize;
    for seat in 0..seats {
        count = count.saturating_add((0..turns).filter(|at| adds(seat, *at)).count());
    }
    count
}
