//! The entries of a board, and its answers.
use rma_types::{Class, Step};
use window_regions::Shape;

/// An entry of the board: its rank, the number of its call in the rank's list, and its step.
#[derive(Clone, Copy, Debug, PartialEq, Eq)]
pub struct EntryRow {
    pub rank: u8,
    pub call: u32,
    pub step: Step,
}

/// What the board answers the next entry of a rank. A gift is what the rank gave with it.
#[derive(Debug, Drop)]
pub enum Decided<N: Drop> {
    /// The entry stands at the end of the list.
    Entered {
        /// Its place in the list, from 0.
        place: u32,
        /// What the gifts of the entries carry from which an edge leads to this one; none where none of them had a
        /// gift.
        gained: Option<N>,
        /// The window that is made, at the Leave of a creation.
        made: Option<Shape>,
    },
    /// The entry is not yet possible. Nothing changed.
    NotYet {
        gift: Option<N>,
    },
    /// The entry is refused by an error class, after `seen` entries. Nothing changed.
    Refused {
        class: Class,
        seen: u32,
        gift: Option<N>,
    },
}
