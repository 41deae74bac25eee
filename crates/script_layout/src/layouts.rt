//! The layout of a script's memory.
ghost use Rattle.std.specs.Prelude.{◌≡◌, ◌≤◌, ℕ, List, length, sum_by, map, IfOk};
ghost use Rattle.std.specs.List.{zip};
ghost use Rattle.rma_types.specs.declared.calls.Call.{Call};
ghost use Rattle.call_rules.specs.Layout.{round_up, memory_bytes, bases_from, parts_from, layout, IsWithinLimits};

use crate::sizes::{call_size, space_size};
use rma_types::{Call, CallBase, Items, Layout, MemoryPart, NoMemory, Script};
use std::alloc::Global;

/// The addresses of a rank's `allocate` calls, and the bytes of the rank's memory.
fn bases_of(alloc: Global, space: u32, calls: &[Call]) -> Result<(Items<CallBase>, u32), NoMemory>
    requires memory { memory_bytes space calls.now ≤ 65536 }
    requires calls { length calls.now ≤ 65536 }
    ensures bases { IfOk result (λ found. found.0 ≡ bases_from 0 (round_up space) calls.now) }
    ensures bytes { IfOk result (λ found. found.1 ≡ memory_bytes space calls.now) }
{
    let mut bases = Items::new(alloc);
    let mut base = space_size(space);
    let mut number = 0u32;
    for call in calls {
        if let Call::Allocate { .. } = call {
            bases
                .push(CallBase { call: number, base })
                .map_err(|_| NoMemory)?;
        }
        base += call_size(call);
        number += 1;
    }
    Ok((bases, base))
}

/// The layout of a script's memory: each rank's first cell and bytes, and the addresses of its `allocate` calls.
pub fn layout_of(alloc: Global, script: &Script) -> Result<Layout, NoMemory>
    requires { IsWithinLimits script.now }
    ensures { IfOk result (λ found. found ≡ layout script.now) }
{
    let mut parts = Items::new(alloc);
    let mut bases = Items::new(alloc);
    let mut cell = 0u32;
    let spaces = script.spaces.as_slice();
    let lists = script.calls.as_slice();
    for (space, calls) in spaces.iter().zip(lists) {
        let (found, bytes) = bases_of(alloc, *space, calls.as_slice())?;
        parts
            .push(MemoryPart {
                first_cell: cell,
                bytes,
            })
            .map_err(|_| NoMemory)?;
        bases.push(found).map_err(|_| NoMemory)?;
        cell += bytes / 4;
    }
    Ok(Layout { parts, bases })
}
