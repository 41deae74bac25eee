//! Steps of calls of a window of name w0 at a board of 16 ranks.
ghost use Rattle.std.specs.Prelude.{◌≡◌, [], true, IfOk};
ghost use Rattle.rma_types.specs.declared.scripts.Layout.{Layout as LayoutValue};
ghost use Rattle.sync_board.specs.Boards.{MayAsk};

use crate::layouts::whole_layout;
use cell_face::Front;
use rma_types::{Asserts, Call, Class, Lock, NoMemory, Step};
use std::alloc::Global;
use sync_board::{Board, Decided};

/// What a board answers, without the window that is made.
#[derive(Clone, Copy, Debug, PartialEq, Eq)]
pub(crate) enum Answer {
    Entered {
        place: u32,
        gained: Option<Front>,
    },
    NotYet {
        gift: Option<Front>,
    },
    Refused {
        class: Class,
        seen: u32,
        gift: Option<Front>,
    },
    /// The tests don't ask this.
    NotAsked,
}

/// Whether the tests ask 16 ranks for this. Calls of groups, of data and of ranges are not among it.
fn is_asked(rank: u8, number: u32, call: &Call, step: Step) -> bool
    ensures { result ≡ true → (layout : LayoutValue) → MayAsk 16 layout
        (record { rank = rank; number = number; call = call.now; step = step }) }
{
    rank < 16
        && match call {
            Call::Barrier | Call::Dynamic { win: 0 } | Call::Fence { win: 0, .. } => {
                matches!(&step, Step::Arrive | Step::Leave)
            }
            Call::LockOne {
                win: 0,
                target: 15,
                ..
            }
            | Call::Unlock { win: 0, target: 15 }
            | Call::LockAll { win: 0, .. }
            | Call::UnlockAll { win: 0 } => matches!(&step, Step::One),
            _ => false,
        }
}

pub(crate) fn new_board(alloc: Global) -> Result<Board<Front>, NoMemory>
    ensures ranks { IfOk result (λ board. board.ranks ≡ 16) }
    ensures name { IfOk result (λ board. board.name ≡ []) }
{
    let layout = whole_layout(alloc, 16)?;
    Board::new(alloc, 16, &layout, Front { places: [0; 16] })
}

/// The answer to the next entry of a rank: this step of its call of this number, with this gift.
pub(crate) fn ask(
    board: &mut Board<Front>,
    rank: u8,
    number: u32,
    call: &Call,
    step: Step,
    gift: Option<Front>,
) -> Result<Answer, NoMemory>
    requires ranks { board.old.ranks ≡ 16 }
    requires name { board.old.name ≡ [] }
    ensures ranks { board.new.ranks ≡ 16 }
    ensures name { board.new.name ≡ [] }
{
    if number >= 65536 || !is_asked(rank, number, call, step) {
        return Ok(Answer::NotAsked);
    }
    match board.decide(rank, number, call, step, gift)? {
        Decided::Entered { place, gained, .. } => Ok(Answer::Entered { place, gained }),
        Decided::NotYet { gift } => Ok(Answer::NotYet { gift }),
        Decided::Refused { class, seen, gift } => Ok(Answer::Refused { class, seen, gift }),
    }
}

const NO_ASSERTS: Asserts = Asserts {
    nocheck: false,
    nostore: false,
    noput: false,
    noprecede: false,
    nosucceed: false,
};

pub(crate) const DYNAMIC: Call = Call::Dynamic { win: 0 };

pub(crate) const FENCE: Call = Call::Fence {
    win: 0,
    asserts: NO_ASSERTS,
};

pub(crate) const LAST_FENCE: Call = Call::Fence {
    win: 0,
    asserts: Asserts {
        nosucceed: true,
        ..NO_ASSERTS
    },
};

pub(crate) const SHARED: Call = Call::LockOne {
    win: 0,
    kind: Lock::Shared,
    target: 15,
    asserts: NO_ASSERTS,
};

pub(crate) const EXCLUSIVE: Call = Call::LockOne {
    win: 0,
    kind: Lock::Exclusive,
    target: 15,
    asserts: NO_ASSERTS,
};

pub(crate) const UNLOCK: Call = Call::Unlock { win: 0, target: 15 };

pub(crate) const LOCK_ALL: Call = Call::LockAll {
    win: 0,
    asserts: NO_ASSERTS,
};

pub(crate) const UNLOCK_ALL: Call = Call::UnlockAll { win: 0 };
