//! The delivery of a pending access, worked out by hand.
ghost use Rattle.std.specs.Prelude.{◌≡◌};
ghost use Rattle.cell_face.specs.Faces.{cell_count};
ghost use Rattle.delivery_queue.specs.Queues.{no_accesses};
ghost use Rattle.memory_tests.specs.Alone.{IsAlone};

use crate::memories::{HALVES, last, one_part, product, touch};
use cell_face::Memory;
use cell_words::Cells;
use delivery_queue::Pending;
use moving_memory::MovingMemory;
use rma_record::Log;
use rma_types::{Call, Layout, NoMemory};
use std::alloc::Global;
use std::test::Fail;

/// Delivers the one access that is pending until it is done, as long as there is a share of 4. The answer is how often
/// an attempt came too late, at most 8.
fn deliver_all<M: Memory>(
    queue: &mut Pending,
    memory: &mut M,
    layout: &Layout,
    calls: &[Call],
    log: &mut Log,
) -> Result<u32, NoMemory>
    requires alone { IsAlone layout.now calls.now queue.old }
    requires cells { cell_count (M.face memory.old) ≡ 2 }
{
    'tries: for late in 0..8 {
        if memory.share() < 4 {
            return Ok(late);
        }
        if queue.deliver(0, memory, layout, calls, log)?.done {
            return Ok(late);
        }
    }
    Ok(8)
}

/// A pending product of the halves of two cells is delivered.
fn deliver_product<M: Memory>(
    alloc: Global,
    memory: &mut M,
    queue: &mut Pending,
    log: &mut Log,
) -> Result<u32, NoMemory>
    requires cells { cell_count (M.face memory.old) ≡ 2 }
    requires empty { queue.old ≡ no_accesses }
{
    let layout = one_part(alloc, 8)?;
    let call = product(alloc)?;
    queue.issue(0, 7, &HALVES, false, None)?;
    deliver_all(queue, memory, &layout, &[call], log)
}

/// The access is left where an attempt came too late, and goes on from there; when it is done, nothing is pending.
#[test]
fn an_access_is_delivered_in_parts(rt: HostRuntime) -> Result<(), Fail> {
    let alloc = rt.alloc();
    let (cells, mut passes) = Cells::new(alloc, &[0x2_0003, 5], &[7, 3])?;
    let other = last(&mut passes)?;
    let own = last(&mut passes)?;
    let late = Vec::from_slice(alloc, &[false, true, false, false, true, true, false])?;
    let mut memory = MovingMemory::new(cells.seat(own), cells.seat(other), late);
    let mut queue = Pending::new(alloc)?;
    let mut log = Log::new(alloc);
    assert_eq!(rt;
        deliver_product(alloc, &mut memory, &mut queue, &mut log)?,
        3
    );
    assert_eq!(rt; queue.count(), 0);
    assert_eq!(rt; memory.share(), 3);
    let items = [
        touch(0, 0, 0, 0x2_0003),
        touch(1, 0, 3, 0x2_000b),
        touch(2, 1, 0, 5),
        touch(3, 1, 2, 16),
    ];
    assert_eq!(rt; log.items(), items.as_slice());
    Ok(())
}
