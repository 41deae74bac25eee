// The seats at the start and at the end.
ghost use Rattle.std.specs.Prelude.{◌≡◌, ◌<◌, [], length, All, IfOk};
ghost use Rattle.turn_lock.specs.Seats.{AreFresh, IsIdleAt, gathered};
ghost use Rattle.turn_lock.specs.Views.{dealing, numbers_from};

use crate::plays::{Deal, Gather};
use crate::seats::TurnSeat;
use crate::views::{InTurn, Place, Start, View};
use atomic_table::Shared;
use listed_values::Listed;
use rma_types::NoMemory;
use std::alloc::Global;

/// A seat for each number.
pub(crate) fn deal_seats<V: Listed>(
    alloc: Global,
    shared: &Shared<Option<V>, View<V::Entry, V::Origin>, Start<V>, InTurn>,
    mut dealer: Place<V>,
    count: u32,
) -> Result<Vec<TurnSeat<V>>, NoMemory>
    requires count { 0 < count }
    requires table { (dealer.table_id ≡ shared.now.table_id) × (0 < shared.now.table_id.words) }
    requires dealer { dealer.me ≡ (
      dealing (numbers_from 0 count)
          (V.origin shared.now.key.value.value),
      [],
    ) }
    ensures count { IfOk result (λ seats. length seats.items ≡ count) }
    ensures fresh { IfOk result (λ seats.
        AreFresh shared.now.table_id (V.origin shared.now.key.value.value) seats.items) }
{
    let mut seats = Vec::with_capacity(alloc, count as usize).map_err(|_| NoMemory)?;
    for _ in 1..count {
        let place = shared.split_seat::<Deal>(&mut dealer);
        seats.push_reserved(TurnSeat { place });
    }
    seats.push_reserved(TurnSeat { place: dealer });
    Ok(seats)
}

/// One seat in place of all, with what they gave and know.
pub(crate) fn gather_seats<V: Listed>(
    shared: &Shared<Option<V>, View<V::Entry, V::Origin>, Start<V>, InTurn>,
    mut seats: Vec<TurnSeat<V>>,
) -> Place<V>
    requires some { 0 < length seats.items }
    requires table { 0 < shared.now.table_id.words }
    requires idle { All (IsIdleAt shared.now.table_id
        (V.origin shared.now.key.value.value)) seats.items }
    ensures table { result.table_id ≡ shared.now.table_id }
    ensures all { result.me ≡ (gathered (V.origin shared.now.key.value.value) seats.items, []) }
{
    let TurnSeat { place: mut all } = seats.pop().unwrap();
    while let Some(seat) = seats.pop() {
        let TurnSeat { mut place } = seat;
        shared.join_seat::<Gather>(&mut place, all);
        all = place;
    }
    all
}
