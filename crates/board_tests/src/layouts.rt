//! A layout for a board.
ghost use Rattle.std.specs.Prelude.{IfOk};
ghost use Rattle.sync_board.specs.Boards.{IsLayoutOf};

use rma_types::{CallBase, Items, Layout, MemoryPart, NoMemory};
use std::alloc::Global;

/// A layout in which each rank has 65,536 bytes, and no allocate a place of its own.
pub(crate) fn whole_layout(alloc: Global, ranks: u8) -> Result<Layout, NoMemory>
    ensures { IfOk result (λ layout. IsLayoutOf ranks layout) }
{
    let mut parts: Items<MemoryPart> = Items::new(alloc);
    let mut bases: Items<Items<CallBase>> = Items::new(alloc);
    for _ in 0..ranks {
        let part = MemoryPart {
            first_cell: 0,
            bytes: 65536,
        };
        let Ok(()) = parts.push(part) else {
            return Err(NoMemory);
        };
        let Ok(()) = bases.push(Items::new(alloc)) else {
            return Err(NoMemory);
        };
    }
    Ok(Layout { parts, bases })
}
