//! Entries of 16 ranks in one order, with the answers that are worked out by hand.
ghost use Rattle.std.specs.Prelude.{◌≡◌, []};

use crate::steps::{
    Answer, DYNAMIC, EXCLUSIVE, FENCE, LAST_FENCE, LOCK_ALL, SHARED, UNLOCK, UNLOCK_ALL, ask,
    new_board,
};
use cell_face::{Front, Token};
use rma_types::{Call, Class, Step};
use std::process::Abort;
use std::test::Fail;
use sync_board::Board;

/// A front that has this place for the cell of this number, and 0 for the others.
fn front(cell: u8, place: u32) -> Front {
    let mut places = [0; 16];
    if cell < 16 {
        places[cell as usize] = place;
    }
    Front { places }
}

fn entered(place: u32, gained: Option<Front>) -> Answer {
    Answer::Entered { place, gained }
}

/// All ranks arrive at their call of this number, the first entry at this place, each with a place of its own cell as a
/// gift, and then leave it: each gains all gifts.
fn meet(rt: &impl Abort, board: &mut Board<Front>, call: &Call, number: u32, first: u32)
    requires ranks { board.old.ranks ≡ 16 }
    requires name { board.old.name ≡ [] }
    ensures ranks { board.new.ranks ≡ 16 }
    ensures name { board.new.name ≡ [] }
{
    let all = Front {
        places: [1, 2, 3, 4, 5, 6, 7, 8, 9, 10, 11, 12, 13, 14, 15, 16],
    };
    for at in 0..32u8 {
        let rank = at % 16;
        let gift = Some(front(rank, 1 + u32::from(rank)));
        let place = first.wrapping_add(u32::from(at));
        let (step, gift, gained) = if at < 16 {
            (Step::Arrive, gift, None)
        } else {
            (Step::Leave, None, Some(all))
        };
        let wanted = Ok(entered(place, gained));
        assert_eq!(rt; ask(board, rank, number, call, step, gift), wanted);
    }
}

/// The gifts of a barrier and of a creation come to all. Then w0 is locked at rank 15: a lock gains of the unlocks that it
/// excludes, also a lock_all and of an unlock_all, and waits for all of them. Fences that differ don't meet.
#[test]
fn entries_of_sixteen_ranks(rt: HostRuntime) -> Result<(), Fail> {
    let mut board = new_board(rt.alloc())?;
    meet(&rt, &mut board, &Call::Barrier, 0, 0);
    meet(&rt, &mut board, &DYNAMIC, 1, 32);
    let seven = Some(front(0, 7));
    let nine = Some(front(1, 9));
    let mut both = front(0, 7);
    both.merge(front(1, 9));
    let held = Answer::NotYet { gift: seven };
    let differs = Answer::Refused {
        class: Class::Assert,
        seen: 72,
        gift: seven,
    };
    for (rank, number, call, step, gift, wanted) in [
        (7, 2, EXCLUSIVE, Step::One, None, entered(64, None)),
        (3, 2, LOCK_ALL, Step::One, seven, held),
        (7, 3, UNLOCK, Step::One, seven, entered(65, None)),
        (3, 2, LOCK_ALL, Step::One, None, entered(66, seven)),
        (4, 2, SHARED, Step::One, None, entered(67, seven)),
        (5, 2, EXCLUSIVE, Step::One, seven, held),
        (3, 3, UNLOCK_ALL, Step::One, nine, entered(68, None)),
        (5, 2, EXCLUSIVE, Step::One, seven, held),
        (4, 3, UNLOCK, Step::One, None, entered(69, None)),
        (15, 2, EXCLUSIVE, Step::One, None, entered(70, Some(both))),
        (0, 2, LAST_FENCE, Step::Arrive, None, entered(71, None)),
        (1, 2, FENCE, Step::Arrive, seven, differs),
    ] {
        assert_eq!(rt;
            ask(&mut board, rank, number, &call, step, gift),
            Ok(wanted)
        );
    }
    Ok(())
}
