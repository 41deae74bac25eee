//! What the tests are made of.
ghost use Rattle.std.specs.Prelude.{◌≡◌, [], ◌∷◌, ◌++◌, replicate, IfOk};
ghost use Rattle.memory_tests.specs.Products.{product};

use cell_words::CellPass;
use rma_record::Item;
use rma_types::{Access, Call, Dtype, Items, Kind, Layout, MemoryPart, NoMemory, Op};
use std::alloc::Global;

/// The four halves of two cells.
pub const HALVES: Access = Access {
    window: 0,
    target: 0,
    lo: 0,
    len: 8,
    kind: Kind::Acc {
        op: Op::Prod,
        dtype: Dtype::Uint16,
    },
};

pub fn last(passes: &mut Vec<CellPass>) -> Result<CellPass, NoMemory>
    ensures { IfOk result (λ pass. passes.old.items ≡ passes.new.items ++ pass ∷ []) }
{
    passes.pop().ok_or(NoMemory)
}

fn copies(alloc: Global, value: u64) -> Result<Items<u64>, NoMemory>
    ensures { IfOk result (λ items. items ≡ replicate 4 value) }
{
    let items = vec![in alloc; value; 4].map_err(|_| NoMemory)?;
    Ok(Items::from_vec(items))
}

/// The call that multiplies them by 3.
pub fn product(alloc: Global) -> Result<Call, NoMemory>
    ensures { IfOk result (λ call. call ≡ product) }
{
    Ok(Call::Acc {
        req: None,
        win: 0,
        target: Some(0),
        disp: 0,
        dtype: Dtype::Uint16,
        op: Op::Prod,
        values: copies(alloc, 3)?,
    })
}

/// The memory of one rank, from cell 0 on: so many bytes.
pub fn one_part(alloc: Global, bytes: u32) -> Result<Layout, NoMemory>
    ensures { IfOk result (λ layout.
        layout.parts ≡ record { first_cell = 0; bytes = bytes } ∷ []) }
{
    let part = MemoryPart {
        first_cell: 0,
        bytes,
    };
    Ok(Layout {
        parts: Items::from_slice(alloc, &[part]).map_err(|_| NoMemory)?,
        bases: Items::new(alloc),
    })
}

/// The item of a touch of the access whose Issue is item 7.
pub fn touch(element: u32, cell: u32, place: u32, bits: u64) -> Item {
    Item::Touch {
        issue: 7,
        element,
        cell,
        place,
        bits,
    }
}
