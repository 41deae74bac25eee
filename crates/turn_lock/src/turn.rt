//! What a turn does.
ghost use Rattle.std.specs.Prelude.{◌≡◌, ℕ, ◌+◌, ◌<◌, ◌≤◌, [], ◌++◌, drop, length, All, IfOk, IfSome, IfNone, slice_index_or};
ghost use mathlib.Core.List.{IsPrefix};
ghost use Rattle.turn_lock.specs.Lists.{of, longer, AddsOwn};
ghost use Rattle.turn_lock.specs.Seats.{number_of, given_by, known_by, seats_of, origin_of, IsIdle, IsWaiting, Holds, IsSameSeat};

use crate::dealing::{deal_seats, gather_seats};
use crate::plays::{Draw, Gather, HandOn, Learn, Look, Tell};
use crate::seats::{Turn, TurnSeat};
use crate::views::Start;
use atomic_table::Table;
use listed_values::Listed;
use rma_types::NoMemory;
use std::alloc::Global;
use std::snapshot::Snapshot;
use std::sync::Wait;
use std::thread;
use std::time::Duration;

/// The word of the next ticket, and the word of the ticket that is served.
const TICKET: usize = 0;

const SERVED: usize = 1;

/// The only slot.
const VALUE: usize = 0;

/// How far from the turn a waiter may be and still yield before it sleeps.
const NEAR: u64 = 3;

/// How often it looks again before it sleeps.
const LOOKS: u64 = 64;

/// How long a waiter sleeps for each one that stands before it: 20 microseconds.
const PAUSE: u64 = 20_000;

/// The most of them that count for the length of a sleep.
const MOST: u64 = 64;

// The low 32 bits of a word, on which threads sleep.
fn low_half(word: u64) -> u32 {
    (word % (1 << 32)) as u32
}

impl<V: Listed> Turn<V> {
    /// A turn round this value, whose list is empty, and its seats: their numbers are their places in the list.
    pub fn new(alloc: Global, value: V, seats: u32) -> Result<(Turn<V>, Vec<TurnSeat<V>>), NoMemory>
        requires seats { 0 < seats }
        requires empty { V.list value ≡ [] }
        ensures count { IfOk result (λ made. (seats_of made.0 ≡ seats) ×
            (length made.1.items ≡ seats)) }
        ensures origin { IfOk result (λ made. origin_of V.origin made.0 ≡ V.origin value) }
        ensures idle { IfOk result (λ made. All (IsIdle V.origin made.0) made.1.items) }
        ensures numbers { IfOk result (λ made. (k : ℕ) (seat : _) → k < length made.1.items
            → number_of (slice_index_or made.1.items k seat) ≡ k) }
        ensures fresh { IfOk result (λ made.
            All (λ seat. (given_by seat ≡ []) × (known_by seat ≡ [])) made.1.items) }
    {
        let start = Start {
            seats: u64::from(seats),
            value: Snapshot::of(&value),
        };
        let mut shelf = Vec::with_capacity(alloc, 1).map_err(|_| NoMemory)?;
        shelf.push(Some(value)).map_err(|_| NoMemory)?;
        let Ok((round, dealer)) = Table::new(alloc, &[0, 0], shelf, &start) else {
            return Err(NoMemory);
        };
        let dealt = deal_seats(alloc, &round.shared, dealer, seats)?;
        Ok((Turn { round }, dealt))
    }

    /// Waits for the turn, and takes the value.
    pub fn take<R: Wait>(&self, seat: &mut TurnSeat<V>, rt: &R) -> V
        requires { IsIdle V.origin self.now seat.old }
        ensures holds { Holds V.origin self.now seat.new }
        ensures same { IsSameSeat seat.old seat.new }
        ensures origin { V.origin result ≡ origin_of V.origin self.now }
        ensures goes_on { IsPrefix (known_by seat.old) (V.list result) }
        ensures knows { known_by seat.new ≡ V.list result }
        ensures own { of V.owner (number_of seat.old) (V.list result) ≡ given_by seat.old }
    {
        let ticket = self.draw(seat);
        let mut looks = 0u64;
        for _ in rt.forever() {
            if let Some(value) = self.look(seat, ticket) {
                return value;
            }
            self.pause(ticket, looks, rt);
            looks = looks.saturating_add(1);
        }
        unreachable!()
    }

    /// Gives the value back, with what this seat added to its list, and hands the turn on.
    pub fn give(&self, seat: &mut TurnSeat<V>, value: V)
        requires holds { Holds V.origin self.now seat.old }
        requires origin { V.origin value ≡ origin_of V.origin self.now }
        requires own { AddsOwn V.owner (number_of seat.old) (known_by seat.old) (V.list value) }
        ensures idle { IsIdle V.origin self.now seat.new }
        ensures number { number_of seat.new ≡ number_of seat.old }
        ensures knows { known_by seat.new ≡ V.list value }
        ensures gave { given_by seat.new
            ≡ given_by seat.old ++ drop (length (known_by seat.old)) (V.list value) }
    {
        let shared = &self.round.shared;
        match shared.exchange(&mut seat.place, VALUE, Some(value)) {
            None => {}
            Some(_) => unreachable!(),
        }
        let served = shared.fetch_add::<HandOn>(&mut seat.place, SERVED, 1);
        // whoever draws a ticket after this look finds the turn handed on
        if shared.peek(TICKET) != served.wrapping_add(1) {
            shared.wake_all(SERVED);
        }
    }

    /// Learns what another seat knows, without waiting: afterwards this seat knows the longer of the two lists.
    pub fn catch_up(&self, seat: &mut TurnSeat<V>, other: &mut TurnSeat<V>)
        requires seat { IsIdle V.origin self.now seat.old }
        requires other { IsIdle V.origin self.now other.old }
        ensures idle { IsIdle V.origin self.now seat.new }
        ensures same { IsSameSeat seat.old seat.new }
        ensures knows { known_by seat.new ≡ longer (known_by seat.old) (known_by other.old) }
        ensures old { IsPrefix (known_by seat.old) (known_by seat.new) }
        ensures others { IsPrefix (known_by other.old) (known_by seat.new) }
        ensures own { IsPrefix (of V.owner (number_of seat.old) (known_by seat.new))
            (given_by seat.old) }
        ensures other { IsIdle V.origin self.now other.new }
        ensures other_stays { IsSameSeat other.old other.new ×
            (known_by other.new ≡ known_by other.old) }
    {
        let shared = &self.round.shared;
        let told = shared.split_seat::<Tell>(&mut other.place);
        shared.join_seat::<Gather>(&mut seat.place, told);
        shared.load::<Learn>(&mut seat.place, SERVED);
    }

    /// Ends the turn with all its seats, and returns the value.
    pub fn close(self, seats: Vec<TurnSeat<V>>) -> V
        requires idle { All (IsIdle V.origin self) seats.items }
        requires count { length seats.items ≡ seats_of self }
        ensures origin { V.origin result ≡ origin_of V.origin self }
        ensures own { All (λ seat. of V.owner (number_of seat) (V.list result) ≡
            given_by seat) seats.items }
        ensures owners { All (λ entry. V.owner entry < seats_of self) (V.list result) }
        ensures known { All (λ seat. IsPrefix (known_by seat) (V.list result)) seats.items }
    {
        let all = gather_seats(&self.round.shared, seats);
        let mut closed = self.round.close_with(all);
        let value = closed.take(VALUE);
        closed.free();
        match value {
            Some(value) => value,
            None => unreachable!(),
        }
    }

    // Draws a ticket, and returns its number modulo 2^64.
    fn draw(&self, seat: &mut TurnSeat<V>) -> u64
        requires { IsIdle V.origin self.now seat.old }
        ensures waiting { IsWaiting V.origin self.now result seat.new }
        ensures same { IsSameSeat seat.old seat.new × (known_by seat.new ≡ known_by seat.old) }
    {
        self.round
            .shared
            .fetch_add::<Draw>(&mut seat.place, TICKET, 1)
    }

    // Looks which ticket is served, and takes the value where it is this one.
    fn look(&self, seat: &mut TurnSeat<V>, ticket: u64) -> Option<V>
        requires { IsWaiting V.origin self.now ticket seat.old }
        ensures same { IsSameSeat seat.old seat.new }
        ensures waits { IfNone result (IsWaiting V.origin self.now ticket seat.new
            × (known_by seat.new ≡ known_by seat.old)) }
        ensures holds { IfSome result (λ value. Holds V.origin self.now seat.new
            × (known_by seat.new ≡ V.list value)) }
        ensures value { IfSome result (λ value. (V.origin value ≡ origin_of V.origin self.now)
            × IsPrefix (known_by seat.old) (V.list value)
            × (of V.owner (number_of seat.old) (V.list value) ≡ given_by seat.old)) }
    {
        let shared = &self.round.shared;
        if shared.load::<Look>(&mut seat.place, SERVED) == ticket {
            shared.exchange(&mut seat.place, VALUE, None)
        } else {
            None
        }
    }

    // Waits a little, unless it is its turn by now. Who is near yields some times, and then sleeps: who is next until
    // the turn is handed on, another the longer the more stand before it.
    fn pause<R: Wait>(&self, ticket: u64, looks: u64, rt: &R) {
        let shared = &self.round.shared;
        let served = shared.peek(SERVED);
        let before = ticket.wrapping_sub(served);
        if before <= NEAR && looks < LOOKS {
            thread::yield_now();
        } else if before == 1 {
            shared.park(rt, SERVED, low_half(served));
        } else if before > 1 {
            let tickets = shared.peek(TICKET);
            let nanos = PAUSE * before.min(MOST);
            shared.park_timeout(rt, TICKET, low_half(tickets), Duration::from_nanos(nanos));
        }
    }
}
