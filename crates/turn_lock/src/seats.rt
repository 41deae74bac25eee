//! A turn and its seats, as types.
ghost use Rattle.std.specs.Prelude.{◌≡◌, ◌<◌};

use crate::views::{Place, Round};
use listed_values::Listed;

/// A turn round a value. Threads share it by reference.
#[derive(Drop)]
pub struct Turn<V: Listed> {
    pub(crate) round: Round<V>,
    ghost sized: { (round.shared.table_id.words ≡ 2) × (round.shared.table_id.slots ≡ 1) },
    ghost some: { 0 < round.shared.key.seats },
}

/// A seat at one turn: what it knows, and whether it has the turn. It has no bytes.
#[derive(Drop)]
pub struct TurnSeat<V: Listed> {
    pub(crate) place: Place<V>,
}
