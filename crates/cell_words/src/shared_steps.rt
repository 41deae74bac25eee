//! The steps on the cells' table, each of which is one atomic step on one word.
ghost use Rattle.std.specs.Prelude.{◌≡◌, ◌+◌, ◌%◌, ◌^◌, ◌<◌};
ghost use Rattle.std.specs.Prelude.{◌≤◌, ◌≢◌, [], Contains, MatchResult, slice_index};
ghost use Rattle.cell_words.specs.Views.{look, bare, joined};
ghost use Rattle.cell_words.specs.Views.{with_look, with_update, without_next, next_dealt};

use crate::cells::Cells;
use crate::steps::{Adds, Attempts, Deals, Joins, Looks, Notes};
use crate::views::View;
use crate::words::{seen, word};
use atomic_table::Seat;
use cell_face::Seen;

/// A right to the cells, and what its holder knows of them.
pub type Holder = Seat<(), View>;

impl Cells {
    /// One load.
    pub(crate) fn look(&self, seat: &mut Holder, cell: u32) -> Seen
        requires table { seat.old.table_id ≡ self.now.table }
        requires cell { cell + 1 < self.now.table.words }
        ensures table { seat.new.table_id ≡ seat.old.table_id }
        ensures view { seat.new.me ≡ (with_look seat.old.me.0 cell result, seat.old.me.1) }
        ensures not_below { slice_index seat.old.me.0.lows cell ≤ result.place }
    {
        seen(self.table.shared.load::<Looks>(seat, cell as usize + 1))
    }

    /// One fetch_add, of `x` to the bits and of 1 to the place.
    pub(crate) fn raise(&self, seat: &mut Holder, cell: u32, x: u32) -> Seen
        requires table { seat.old.table_id ≡ self.now.table }
        requires cell { cell + 1 < self.now.table.words }
        requires share { 1 ≤ seat.old.me.0.share }
        ensures table { seat.new.table_id ≡ seat.old.table_id }
        ensures view { let sum = (result.bits + x) % 2 ^ 32 in
            seat.new.me ≡ (with_update seat.old.me.0 cell result sum, seat.old.me.1) }
        ensures not_below { slice_index seat.old.me.0.lows cell ≤ result.place }
    {
        seen(
            self.table
                .shared
                .fetch_add::<Adds>(seat, cell as usize + 1, word(x, 1)),
        )
    }

    /// One compare_exchange. The answer is the cell's state where it had moved on.
    pub(crate) fn exchange(
        &self,
        seat: &mut Holder,
        cell: u32,
        expected: Seen,
        new: u32,
    ) -> Result<(), Seen>
        requires table { seat.old.table_id ≡ self.now.table }
        requires cell { cell + 1 < self.now.table.words }
        requires share { 1 ≤ seat.old.me.0.share }
        requires expected { Contains seat.old.me.0.known (look cell expected) }
        ensures table { seat.new.table_id ≡ seat.old.table_id }
        ensures view { MatchResult result
            (λ _. seat.new.me ≡ (with_update seat.old.me.0 cell expected new, seat.old.me.1))
            (λ seen. seat.new.me ≡ (with_look seat.old.me.0 cell seen, seat.old.me.1)) }
        ensures not_below { MatchResult result
            (λ _. slice_index seat.old.me.0.lows cell ≤ expected.place)
            (λ seen. slice_index seat.old.me.0.lows cell ≤ seen.place) }
        ensures later { MatchResult result (λ _. Unit {0}) (λ seen. expected.place < seen.place) }
    {
        let old = word(expected.bits, expected.place);
        let next = word(new, expected.place).wrapping_add(1);
        let shared = &self.table.shared;
        let found = shared.compare_exchange::<Attempts>(seat, cell as usize + 1, old, next);
        if found == old {
            Ok(())
        } else {
            Err(seen(found))
        }
    }

    /// A new seat with the next share that is to be dealt.
    pub(crate) fn deal(&self, seat: &mut Holder) -> Holder
        requires table { seat.old.table_id ≡ self.now.table }
        ensures table { seat.new.table_id ≡ seat.old.table_id }
        ensures new_table { result.table_id ≡ seat.old.table_id }
        ensures view { seat.new.me ≡ (without_next seat.old.me.0, seat.old.me.1) }
        ensures new_view { result.me ≡ (next_dealt seat.old.me.0, []) }
    {
        self.table.shared.split_seat::<Deals>(seat)
    }

    /// A new seat with the lowest places alone.
    pub(crate) fn copy_lows(&self, seat: &mut Holder) -> Holder
        requires table { seat.old.table_id ≡ self.now.table }
        ensures table { seat.new.table_id ≡ seat.old.table_id }
        ensures new_table { result.table_id ≡ seat.old.table_id }
        ensures view { seat.new.me ≡ seat.old.me }
        ensures new_view { result.me ≡ (bare seat.old.me.0.lows, []) }
    {
        self.table.shared.split_seat::<Notes>(seat)
    }

    /// Takes in what another knows and may do.
    pub(crate) fn take_in(&self, seat: &mut Holder, other: Holder)
        requires table { seat.old.table_id ≡ self.now.table }
        requires other_table { other.table_id ≡ self.now.table }
        requires free { other.me.1 ≡ [] }
        ensures table { seat.new.table_id ≡ seat.old.table_id }
        ensures view { seat.new.me ≡ (joined seat.old.me.0 other.me.0, seat.old.me.1) }
    {
        self.table.shared.join_seat::<Joins>(seat, other);
    }
}
