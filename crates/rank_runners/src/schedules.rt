//! The order in which the ranks take turns.
ghost use Rattle.std.specs.Prelude.{◌≡◌, ◌<◌, ◌≤◌, ◌-◌, ◌+◌, ◌%◌, ℕ, Bool, length, slice_get, reverse, IfSome};
ghost use Rattle.std.specs.Prelude.{if◌then◌else◌};
ghost use Rattle.std.specs.List.{find, filter};
ghost use Rattle.call_rules.specs.Pieces.{numbers_from};
ghost use Rattle.rank_runners.specs.RankSets.{has};
ghost use Rattle.rank_runners.specs.Marks.{IsKept, IsPicked};
ghost use Rattle.step_runs.specs.Schedules.{Schedule, first_schedule, in_order, pick, after_board};

use crate::generators::{drawn_from, stirred};
use crate::rank_sets::RankSet;
use rma_types::Order;

/// The ranks that were found waiting since the last entry, the rank of the last turn, and the state of the order's
/// generator.
#[derive(Clone, Copy, Debug)]
pub(crate) struct Turns {
    waiting: RankSet,
    last: u8,
    draws: u64,
}

/// The first of the ranks from `from` on, and below `to`, that is ready.
fn first_ready(ready: RankSet, from: u8, to: u8) -> Option<u8>
    requires { to ≤ 32 }
    ensures { result ≡ find (has ready) (numbers_from from (to - from)) }
{
    for rank in from..to {
        if ready.contains(rank) {
            return Some(rank);
        }
    }
    None
}

/// The last of the ranks from `from` on, and below `to`, that is ready.
fn last_ready(ready: RankSet, from: u8, to: u8) -> Option<u8>
    requires { to ≤ 32 }
    ensures { result ≡ find (has ready) (reverse (numbers_from from (to - from))) }
{
    let mut at = to;
    while at > from {
        at -= 1;
        if ready.contains(at) {
            return Some(at);
        }
    }
    None
}

/// How many of the ranks are ready.
fn count_ready(ready: RankSet, ranks: u8) -> u64
    requires { ranks ≤ 32 }
    ensures { result ≡ length (filter (has ready) (numbers_from 0 ranks)) }
{
    let mut count = 0;
    for rank in 0..ranks {
        if ready.contains(rank) {
            count += 1;
        }
    }
    count
}

/// The rank at a place among those that are ready, ascending.
fn ready_at(ready: RankSet, ranks: u8, place: u64) -> Option<u8>
    requires { ranks ≤ 32 }
    ensures { result ≡ slice_get (filter (has ready) (numbers_from 0 ranks)) place }
{
    let mut left = place;
    for rank in 0..ranks {
        if ready.contains(rank) {
            if left == 0 {
                return Some(rank);
            }
            left -= 1;
        }
    }
    None
}

/// The first rank that is ready, in the order in which one is looked for after the last one.
fn next_ready(order: Order, ready: RankSet, last: u8, ranks: u8) -> Option<u8>
    requires last { last < ranks }
    requires ranks { ranks ≤ 32 }
    ensures { result ≡ find (has ready) (in_order order last ranks) }
{
    match order {
        Order::Robin => match first_ready(ready, last + 1, ranks) {
            Some(rank) => Some(rank),
            None => first_ready(ready, 0, last + 1),
        },
        Order::Reverse => match last_ready(ready, 0, last) {
            Some(rank) => Some(rank),
            None => last_ready(ready, last, ranks),
        },
        Order::Greedy | Order::Seeded => first_ready(ready, 0, ranks),
    }
}

impl Turns {
    /// The schedule before the first turn. The seed is that of the run.
    pub(crate) fn new(order: Order, ranks: u8, seed: u32) -> Turns
        requires { 1 ≤ ranks }
        ensures kept { IsKept result (first_schedule order ranks seed) }
    {
        Turns {
            waiting: RankSet::none(),
            last: match order {
                Order::Robin => ranks - 1,
                Order::Reverse | Order::Greedy | Order::Seeded => 0,
            },
            draws: u64::from(seed) * 64 + 16,
        }
    }

    /// Picks a drawn rank among those that are ready, and gives it the turn.
    fn draw(&mut self, ready: RankSet, ranks: u8) -> Option<u8>
        requires { ranks ≤ 32 }
        ensures { (schedule : Schedule) → IsKept self.old schedule →
            IsPicked ready ranks schedule (pick Order.Seeded (has ready) ranks schedule) result self.new }
    {
        let count = count_ready(ready, ranks);
        if count == 0 {
            return None;
        }
        self.draws = stirred(self.draws);
        match ready_at(ready, ranks, drawn_from(self.draws) % count) {
            Some(rank) => {
                self.last = rank;
                Some(rank)
            }
            None => None,
        }
    }

    /// Picks the rank of the next turn among those that are ready, and gives it the turn; none where none is.
    pub(crate) fn pick(&mut self, order: Order, ready: RankSet, ranks: u8) -> Option<u8>
        requires last { self.old.last < ranks }
        requires ranks { ranks ≤ 32 }
        ensures { (schedule : Schedule) → IsKept self.old schedule →
            IsPicked ready ranks schedule (pick order (has ready) ranks schedule) result self.new }
    {
        if let Order::Seeded = order {
            return self.draw(ready, ranks);
        }
        match next_ready(order, ready, self.last, ranks) {
            Some(rank) => {
                self.last = rank;
                Some(rank)
            }
            None => None,
        }
    }

    /// The ranks that were found waiting since the last entry.
    pub(crate) fn waiting(&self) -> RankSet
        ensures { result ≡ self.now.waiting }
    {
        self.waiting
    }

    /// An entry makes all ranks ready again; then a rank whose next entry is not yet possible waits.
    pub(crate) fn after_board(&mut self, has_entered: bool, waits: bool, rank: u8)
        requires { rank < 32 }
        ensures { (schedule : Schedule) → IsKept self.old schedule →
            IsKept self.new (after_board has_entered waits rank schedule) }
    {
        if has_entered {
            self.waiting = RankSet::none();
        }
        if waits {
            self.waiting = self.waiting.with(rank);
        }
    }
}
