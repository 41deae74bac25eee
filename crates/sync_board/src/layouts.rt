//! The layout of the ranks' memory, and the parts that creations bring (MPI 3.1, sections 11.2.1 to 11.2.4).
ghost use Rattle.std.specs.Prelude.{◌≡◌, ℕ, true, [], IfOk, slice_index_or};
ghost use Rattle.std.specs.Option.{option_map_or};
ghost use Rattle.rma_types.specs.Actions.{creation_of};
ghost use Rattle.rank_rules.specs.Windows.{no_part};
ghost use Rattle.board_rules.specs.Shapes.{base_of, part_made};
ghost use Rattle.sync_board.specs.KeptParts.{AreInOrder, IsInOrder, base_for};

use crate::truths::natural;
use rma_types::{Call, CallBase, Items, Layout, NoMemory, Part};
use std::alloc::Global;
use std::marker::Model;

/// A layout. Where the bases of each rank stand in the order of their calls, as those of a script do, they are
/// searched by halves.
#[derive(Debug, Drop)]
pub(crate) struct KeptLayout {
    layout: Layout,
    in_order: bool,
}

impl Model for KeptLayout {
    ghost use Rattle.std.specs.Prelude.{◌≡◌, true};
    ghost use Rattle.rma_types.specs.declared.scripts.Layout.{Layout as PlainLayout};
    ghost use Rattle.sync_board.specs.KeptParts.{AreInOrder};

    ghost Value = { PlainLayout };

    ghost view = { λ kept. kept.layout };

    ghost invariant = { λ kept. kept.in_order ≡ true → AreInOrder kept.layout.bases };
}

/// The calls of the bases ascend.
fn is_in_order(bases: &[CallBase]) -> bool
    ensures { result ≡ true → IsInOrder bases.now }
{
    for at in 1..bases.len() {
        let before = bases[at - 1].call;
        let here = bases[at].call;
        if here < before {
            return false;
        }
    }
    true
}

/// The calls of the bases of each rank ascend.
fn are_in_order(bases: &[Items<CallBase>]) -> bool
    ensures { result ≡ true → AreInOrder bases.now }
{
    for of_rank in bases {
        if !is_in_order(of_rank.as_slice()) {
            return false;
        }
    }
    true
}

/// The base for the call of the number.
fn search_base(bases: &[CallBase], number: u32) -> u32
    requires { IsInOrder bases.now }
    ensures { result ≡ base_for bases.now number }
{
    let at = bases.partition_point(|one| one.call < number);
    if at < bases.len() {
        let one = bases[at];
        if one.call == number { one.base } else { 0 }
    } else {
        0
    }
}

/// The base for the call of the number, among bases in any order.
fn find_base(bases: &[CallBase], number: u32) -> u32
    ensures { result ≡ base_for bases.now number }
{
    for one in bases {
        if one.call == number {
            return one.base;
        }
    }
    0
}

/// The bases of a rank, and none where there is no such rank.
fn bases_of(layout: &Layout, rank: u8) -> &[CallBase]
    ensures { result.now ≡ slice_index_or layout.now.bases rank [] }
{
    match layout.bases.get(rank as usize) {
        Some(bases) => bases.as_slice(),
        None => &[],
    }
}

fn copy_bases(alloc: Global, bases: &[Items<CallBase>]) -> Result<Items<Items<CallBase>>, NoMemory>
    ensures { IfOk result (λ copy. copy ≡ bases.now) }
{
    let mut copy = Items::new(alloc);
    for of_rank in bases {
        let one = Items::from_slice(alloc, of_rank.as_slice()).map_err(|_| NoMemory)?;
        copy.push(one).map_err(|_| NoMemory)?;
    }
    Ok(copy)
}

impl KeptLayout {
    fn new(layout: Layout) -> KeptLayout
        ensures { result ≡ layout }
    {
        let in_order = are_in_order(layout.bases.as_slice());
        KeptLayout { layout, in_order }
    }

    /// A copy of a layout.
    pub(crate) fn copy(alloc: Global, layout: &Layout) -> Result<KeptLayout, NoMemory>
        ensures { IfOk result (λ kept. kept ≡ layout.now) }
    {
        let parts = Items::from_slice(alloc, layout.parts.as_slice()).map_err(|_| NoMemory)?;
        let bases = copy_bases(alloc, layout.bases.as_slice())?;
        Ok(KeptLayout::new(Layout { parts, bases }))
    }

    /// The address that the memory of the rank's allocate of this number begins at.
    fn base(&self, rank: u8, number: u32) -> u32
        ensures { result ≡ base_of self.now rank number }
    {
        let bases = bases_of(&self.layout, rank);
        if self.in_order {
            search_base(bases, number)
        } else {
            find_base(bases, number)
        }
    }

    /// The part that a rank brings by its call of this number, and none where that is no creation.
    pub(crate) fn part(&self, rank: u8, number: u32, call: &Call) -> Part
        ensures { result ≡ option_map_or (part_made self.now rank number)
            (creation_of call.now) no_part }
    {
        match call {
            Call::Allocate { bytes, unit, .. } => Part {
                base: self.base(rank, number),
                bytes: natural(*bytes),
                unit: natural(*unit),
            },
            Call::Create {
                base,
                bytes,
                unit,
                ..
            } => Part {
                base: natural(*base),
                bytes: natural(*bytes),
                unit: natural(*unit),
            },
            _ => Part {
                base: 0,
                bytes: 0,
                unit: 1,
            },
        }
    }
}
