//! What the holder of a seat knows, as plain data. No value of these types is made: they exist in proofs alone.
use cell_face::Seen;
use std::collections::LinkedList;
use std::marker::Model;

/// One update of a cell: its place, and the bits before and after it.
pub struct Made {
    pub cell: u32,
    pub place: u32,
    pub before: u32,
    pub after: u32,
}

impl Model for Made {
    ghost use Rattle.cell_face.specs.Faces.{Update};

    ghost Value = { Update };

    ghost view = { λ made. record {
      cell = made.cell;
      place = made.place;
      before = made.before;
      after = made.after;
    } };
}

/// A state of a cell that was seen.
pub struct Look {
    pub cell: u32,
    pub seen: Seen,
}

/// What a seat knows and may do.
pub struct View {
    /// For each cell its lowest place.
    pub lows: LinkedList<u32>,
    /// The updates that were made through this seat.
    pub made: LinkedList<Made>,
    /// The states that were seen.
    pub known: LinkedList<Look>,
    /// How many updates may still be made.
    pub share: u32,
    /// The shares that are still to be dealt to new seats.
    pub deal: LinkedList<u32>,
}
