//! The touches of one access, worked out by hand.
ghost use Rattle.std.specs.Prelude.{◌≡◌, ◌≤◌, IfOk};
ghost use Rattle.access_steps.specs.Plans.{IsAccessOf, LiesWithin, element_count};
ghost use Rattle.call_rules.specs.WellFormed.{IsWrittenCall};
ghost use Rattle.cell_face.specs.Faces.{cell_count};

use crate::memories::{HALVES, last, one_part, product, touch};
use access_steps::touch_on;
use cell_face::Memory;
use cell_words::Cells;
use moving_memory::MovingMemory;
use rma_record::{Keep, Log};
use rma_types::{Access, Call, Layout, NoMemory};
use std::alloc::Global;
use std::test::Fail;

/// Touches the elements of an access from the first on, and goes on where an attempt came too late, as long as there is
/// a share for the elements that are left. The answer is how often one came too late, at most 8.
fn touch_all<M: Memory, L: Keep>(
    memory: &mut M,
    call: &Call,
    access: &Access,
    layout: &Layout,
    log: &mut L,
) -> u32
    requires call { IsWrittenCall call.now }
    requires access { IsAccessOf call.now access.now }
    requires four { element_count call.now ≡ 4 }
    requires inside { LiesWithin layout.now access.now call.now 2 }
    requires cells { cell_count (M.face memory.old) ≡ 2 }
    requires room { 4 ≤ L.spare log.old }
{
    let mut next = 0;
    'tries: for late in 0..8 {
        if memory.share() < 4 - next {
            return late;
        }
        let progress = touch_on(memory, call, 7, access, layout, next, log);
        next = progress.next;
        if !progress.moved {
            return late;
        }
    }
    8
}

/// Multiplies the four halves of two cells by 3.
fn multiply<M: Memory>(alloc: Global, memory: &mut M, log: &mut Log) -> Result<u32, NoMemory>
    requires { cell_count (M.face memory.old) ≡ 2 }
{
    let layout = one_part(alloc, 8)?;
    let call = product(alloc)?;
    log.reserve(4)?;
    Ok(touch_all(memory, &call, &HALVES, &layout, log))
}

/// How often an attempt came too late, the share that is left, and the items, where the rank has a share of `share`, and
/// three updates of another come between.
fn multiply_late(alloc: Global, share: u32, late: &[bool]) -> Result<(u32, u32, Log), NoMemory>
    requires { share ≤ 100 }
{
    let (cells, mut passes) = Cells::new(alloc, &[0x2_0003, 5], &[share, 3])?;
    let other = last(&mut passes)?;
    let own = last(&mut passes)?;
    let late = Vec::from_slice(alloc, late).map_err(|_| NoMemory)?;
    let mut memory = MovingMemory::new(cells.seat(own), cells.seat(other), late);
    let mut log = Log::new(alloc);
    let times = multiply(alloc, &mut memory, &mut log)?;
    Ok((times, memory.share(), log))
}

/// The second attempt of the second element comes too late too, and the first one of the fourth. Each element is then
/// touched on the state that the other's updates left, and the share runs down to 0.
#[test]
fn an_access_goes_on_where_an_attempt_came_too_late(rt: HostRuntime) -> Result<(), Fail> {
    let late = [false, true, false, false, true, true, false];
    let (times, share, log) = multiply_late(rt.alloc(), 4, &late)?;
    assert_eq!(rt; times, 3);
    assert_eq!(rt; share, 0);
    let items = [
        touch(0, 0, 0, 0x2_0003),
        touch(1, 0, 3, 0x2_000b),
        touch(2, 1, 0, 5),
        touch(3, 1, 2, 16),
    ];
    assert_eq!(rt; log.items(), items.as_slice());
    Ok(())
}

/// Nothing comes between where no attempt is to be late, or where the other has no share left.
#[test]
fn no_more_than_the_other_may_update_comes_between(rt: HostRuntime) -> Result<(), Fail> {
    let (times, share, log) = multiply_late(rt.alloc(), 9, &[])?;
    assert_eq!(rt; (times, share), (0, 5));
    assert_eq!(rt; log.items().len(), 4);
    let (times, share, log) = multiply_late(rt.alloc(), 9, &[true; 9])?;
    assert_eq!(rt; (times, share), (3, 5));
    assert_eq!(rt; log.items().last().copied(), Some(touch(3, 1, 1, 15)));
    Ok(())
}
