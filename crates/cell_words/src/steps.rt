//! The rule that the table keeps between any two steps, and the five kinds of step.
ghost use Rattle.cell_words.specs.Rule.{IsKept};
ghost use Rattle.cell_words.specs.Views.{first_view, without_next, next_dealt, bare, joined, spent};
ghost use Rattle.cell_words.specs.Steps.{Looked, Added, Attempted};

use crate::views::View;
use atomic_table::{Join, Play, Split, TableRule};

/// What the table is told when it is made.
#[derive(Drop)]
pub struct Start {
    /// The first bits of each cell.
    pub init: Vec<u32>,
    /// The shares of the seats.
    pub shares: Vec<u32>,
}

/// Each cell has one history, and each seat fits it.
pub struct Histories;

impl TableRule<(), View, Start> for Histories {
    ghost holds = { λ start state.
        IsKept start.init.items start.shares.items state.words state.views };

    ghost first = { λ start. first_view start.init.items start.shares.items };
}

/// A load of a cell.
pub struct Looks;

impl Play<(), View> for Looks {
    ghost then = { Looked };
}

/// A fetch_add of a cell: one update.
pub struct Adds;

impl Play<(), View> for Adds {
    ghost then = { Added };
}

/// A compare_exchange of a cell: one update where the cell had not moved on, and else a look.
pub struct Attempts;

impl Play<(), View> for Attempts {
    ghost then = { Attempted };
}

/// A new seat, with the next share that is to be dealt.
pub struct Deals;

impl Split<View> for Deals {
    ghost left = { without_next };

    ghost right = { next_dealt };
}

/// A note, with the lowest places alone.
pub struct Notes;

impl Split<View> for Notes {
    ghost left = { λ view. view };

    ghost right = { λ view. bare view.lows };
}

/// A seat or a note is taken in.
pub struct Joins;

impl Join<View> for Joins {
    ghost both = { joined };

    ghost spent = { spent };
}
