//! Sums that four threads make in one cell.
ghost use Rattle.std.specs.Prelude.{◌≡◌, ◌++◌, [], ◌∷◌, IfOk};
ghost use Rattle.std.specs.Thread.{IsSync};
ghost use Rattle.thread_tests.specs.Ready.{IsReady};

use cell_face::Memory;
use cell_words::{CellPass, Cells};
use rma_types::NoMemory;
use std::alloc::Global;
use std::test::Fail;
use std::thread::{Threads, join};

/// Adds `x` to the first cell as often as the share allows, at most 100 times.
fn add_all(cells: &Cells, pass: CellPass, x: u32) -> CellPass
    requires { IsReady cells.now 100 0 pass }
    ensures { IsReady cells.now 100 0 result }
{
    let mut seat = cells.seat(pass);
    for _ in 0..100 {
        if seat.share() > 0 {
            seat.add(0, x);
        }
    }
    seat.into_pass()
}

/// Two threads add to the first cell.
fn both<R: Threads + Sync>(
    rt: &R,
    cells: &Cells,
    a: (CellPass, u32),
    b: (CellPass, u32),
) -> (CellPass, CellPass)
    requires a { IsReady cells.now 100 0 a.0 }
    requires b { IsReady cells.now 100 0 b.0 }
    ensures a { IsReady cells.now 100 0 result.0 }
    ensures b { IsReady cells.now 100 0 result.1 }
{
    let (a, x) = a;
    let (b, y) = b;
    join(
        rt,
        || -> CellPass
            requires { IsReady cells.now 100 0 a }
            ensures { IsReady cells.entry.now 100 0 result }
        { add_all(cells, a, x) },
        || -> CellPass
            requires { IsReady cells.now 100 0 b }
            ensures { IsReady cells.entry.now 100 0 result }
        { add_all(cells, b, y) },
    )
}

pub fn last(passes: &mut Vec<CellPass>) -> Result<CellPass, NoMemory>
    ensures { IfOk result (λ pass. passes.old.items ≡ passes.new.items ++ pass ∷ []) }
{
    passes.pop().ok_or(NoMemory)
}

/// Four threads add 1, 2, 3 and 4 to the first cell, each 100 times.
fn sums<R: Threads + Sync>(rt: &R, alloc: Global) -> Result<Vec<u32>, NoMemory> {
    let (cells, mut passes) = Cells::new(alloc, &[5, 7], &[100, 100, 100, 100])?;
    let d = last(&mut passes)?;
    let c = last(&mut passes)?;
    let b = last(&mut passes)?;
    let a = last(&mut passes)?;
    let ((a, b), (c, d)) = join(
        rt,
        || -> (CellPass, CellPass)
            requires { IsSync R.row × IsReady cells 100 0 a × IsReady cells 100 0 b }
            ensures { IsReady cells 100 0 result.0 × IsReady cells 100 0 result.1 }
        { both(rt, &cells, (a, 1), (b, 2)) },
        || -> (CellPass, CellPass)
            requires { IsSync R.row × IsReady cells 100 0 c × IsReady cells 100 0 d }
            ensures { IsReady cells 100 0 result.0 × IsReady cells 100 0 result.1 }
        { both(rt, &cells, (c, 3), (d, 4)) },
    );
    let passes = Vec::from_array(alloc, [a, b, c, d]).map_err(|_| NoMemory)?;
    cells.close(alloc, passes)
}

#[test]
fn four_threads_add_to_one_cell(rt: HostRuntime) -> Result<(), Fail> {
    let finals = sums(&rt, rt.alloc())?;
    assert_eq!(rt; finals.as_slice(), [1005, 7].as_slice());
    Ok(())
}
