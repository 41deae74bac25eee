//! Single calls of one seat, with the answers that are worked out by hand.
ghost use Rattle.std.specs.Prelude.{◌≡◌};
ghost use Rattle.thread_tests.specs.Ready.{IsReady};

use cell_face::{Memory, Moved, Seen};
use cell_words::{CellPass, Cells};
use rma_types::NoMemory;
use std::alloc::Global;
use std::test::Fail;

/// What the calls of a seat answered, and its share after them.
#[derive(Drop)]
struct Answers {
    added: Seen,
    loaded: Seen,
    late: Result<u32, Moved>,
    made: Result<u32, Moved>,
    share: u32,
}

/// An add, a load, an attempt that comes too late, and one that does not, all on the first cell.
fn ask(cells: &Cells, pass: CellPass) -> (Answers, CellPass)
    requires ready { IsReady cells.now 3 0 pass }
    requires share { pass.view.share ≡ 3 }
    ensures ready { IsReady cells.now 3 0 result.1 }
{
    let mut seat = cells.seat(pass);
    let added = seat.add(0, u32::MAX);
    let loaded = seat.load(0);
    let late = seat.attempt(0, added, 9);
    let made = seat.attempt(0, loaded, 7);
    let share = seat.share();
    let answers = Answers {
        added,
        loaded,
        late,
        made,
        share,
    };
    (answers, seat.into_pass())
}

/// The answers, and the bits of the two cells at the end.
fn row(alloc: Global) -> Result<(Answers, Vec<u32>), NoMemory> {
    let (cells, mut passes) = Cells::new(alloc, &[5, 0], &[3])?;
    let pass = crate::sums::last(&mut passes)?;
    let (answers, pass) = ask(&cells, pass);
    let passes = Vec::from_array(alloc, [pass]).map_err(|_| NoMemory)?;
    let finals = cells.close(alloc, passes)?;
    Ok((answers, finals))
}

#[test]
fn a_seat_answers_as_worked_out(rt: HostRuntime) -> Result<(), Fail> {
    let (answers, finals) = row(rt.alloc())?;
    assert_eq!(rt; answers.added, Seen { bits: 5, place: 0 });
    assert_eq!(rt; answers.loaded, Seen { bits: 4, place: 1 });
    let seen = Seen { bits: 4, place: 1 };
    assert_eq!(rt; answers.late, Err(Moved { seen }));
    assert_eq!(rt; answers.made, Ok(1));
    assert_eq!(rt; answers.share, 1);
    assert_eq!(rt; finals.as_slice(), [7, 0].as_slice());
    Ok(())
}
