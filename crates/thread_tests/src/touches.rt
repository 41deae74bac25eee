//! The same accesses over cells that threads may share, and over a memory of one thread.
ghost use Rattle.std.specs.Prelude.{◌≡◌, ◌<◌, ◌≤◌, [], ◌∷◌, ◌++◌, length, replicate, IfOk};
ghost use Rattle.call_rules.specs.Numbers.{patterns_of};
ghost use Rattle.cell_face.specs.Faces.{cell_count};

use access_steps::touch_on;
use cell_face::{Memory, PlainMemory};
use cell_words::Cells;
use rma_record::{Keep, Log};
use rma_types::{Access, Call, Dtype, Items, Kind, Layout, MemoryPart, NoMemory, Op};
use std::alloc::Global;
use std::test::Fail;

fn copies(alloc: Global, value: u64) -> Result<Items<u64>, NoMemory>
    ensures { IfOk result (λ items. items ≡ replicate 4 value) }
{
    let items = vec![in alloc; value; 4].map_err(|_| NoMemory)?;
    Ok(Items::from_vec(items))
}

/// The memory of one rank, from cell 0 on: four cells.
fn four_cells(alloc: Global) -> Result<Layout, NoMemory>
    ensures { IfOk result (λ layout. layout.parts ≡ record { first_cell = 0; bytes = 16 } ∷ []) }
{
    let parts = Items::from_slice(
        alloc,
        &[MemoryPart {
            first_cell: 0,
            bytes: 16,
        }],
    )
    .map_err(|_| NoMemory)?;
    Ok(Layout {
        parts,
        bases: Items::new(alloc),
    })
}

/// Touches four elements from byte 0 on by an accumulate.
fn touch_four<M: Memory>(
    alloc: Global,
    memory: &mut M,
    dtype: Dtype,
    op: Op,
    value: u64,
    log: &mut Log,
) -> Result<(), NoMemory>
    requires value { value < patterns_of dtype }
    requires cells { cell_count (M.face memory.old) ≡ 4 }
    ensures { IfOk result (λ _. cell_count (M.face memory.new) ≡ 4) }
{
    if memory.share() < 4 {
        return Err(NoMemory);
    }
    let layout = four_cells(alloc)?;
    let call = Call::Acc {
        req: None,
        win: 0,
        target: Some(0),
        disp: 0,
        dtype,
        op,
        values: copies(alloc, value)?,
    };
    let access = Access {
        window: 0,
        target: 0,
        lo: 0,
        len: 4 * dtype.size(),
        kind: Kind::Acc { op, dtype },
    };
    log.reserve(4)?;
    let _progress = touch_on(memory, &call, 0, &access, &layout, 0, log);
    Ok(())
}

/// A sum of whole cells is one add each; a product of halves of cells is one load and one attempt each.
fn touch_twice<M: Memory>(alloc: Global, memory: &mut M) -> Result<Log, NoMemory>
    requires { cell_count (M.face memory.old) ≡ 4 }
{
    let mut log = Log::new(alloc);
    touch_four(alloc, memory, Dtype::Uint32, Op::Sum, 5, &mut log)?;
    touch_four(alloc, memory, Dtype::Uint16, Op::Prod, 3, &mut log)?;
    Ok(log)
}

fn touch_shared(alloc: Global) -> Result<Log, NoMemory> {
    let (cells, mut passes) = Cells::new(alloc, &[1, 2, 3, 0x1_0004], &[8])?;
    let pass = crate::sums::last(&mut passes)?;
    let mut seat = cells.seat(pass);
    touch_twice(alloc, &mut seat)
}

#[test]
fn a_seat_touches_as_a_plain_memory_does(rt: HostRuntime) -> Result<(), Fail> {
    let mut plain = PlainMemory::new(rt.alloc(), &[1, 2, 3, 0x1_0004])?;
    let one = touch_twice(rt.alloc(), &mut plain)?;
    let two = touch_shared(rt.alloc())?;
    assert_eq!(rt; two.items().len(), 8);
    assert_eq!(rt; two.items(), one.items());
    Ok(())
}
