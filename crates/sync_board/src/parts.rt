//! The parts of a window (MPI 3.1, sections 11.2.1 to 11.2.4).
ghost use Rattle.std.specs.Prelude.{◌≡◌, ◌≢◌, ℕ, ◌<◌, ◌≤◌, ◌==◌, ◌&&◌, true, List, [], ◌∷◌, ◌++◌, Option, Some, None};
ghost use Rattle.std.specs.Prelude.{length, IfOk, OnOk, OnErr};
ghost use Rattle.std.specs.Option.{option_or};
ghost use Rattle.rma_types.specs.declared.accesses.Step.TheVariants.{Arrive as ArriveStep};
ghost use Rattle.rma_types.specs.declared.calls.Flavor.TheVariants.{Dynamic as DynamicFlavor};
ghost use Rattle.rma_types.specs.declared.scripts.Layout.{Layout};
ghost use Rattle.rma_types.specs.declared.actions.Creation.{Creation};
ghost use Rattle.rma_types.specs.Actions.{creation_of};
ghost use Rattle.rank_rules.specs.Windows.{is_same_flavor, no_part};
ghost use Rattle.board_rules.specs.Entries.{Act, Row, acts, window_of};
ghost use Rattle.board_rules.specs.Shapes.{part_made};
ghost use Rattle.sync_board.specs.Boards.{BoardState, IsLayoutOf, IsShapeMade, rows_on};
ghost use Rattle.sync_board.specs.KeptParts.{IsInside, KeepsParts, part_kept, part_or_none, parts_or_none};

use rma_types::{Flavor, Items, NoMemory, Part};
use std::alloc::Global;
use window_regions::Shape;

/// The parts that the ranks have brought to one window, up to the last rank that has arrived at its creation.
#[derive(Debug, Drop)]
pub(crate) struct Parts {
    pub(crate) parts: Vec<Option<Part>>,
}

/// The list has at least so many items. What it says of each rank stays.
fn make_room(parts: &mut Vec<Option<Part>>, count: usize) -> Result<(), NoMemory>
    ensures long { OnOk result (count ≤ length parts.new.items) }
    ensures same { (rank : ℕ) → part_kept parts.new.items rank ≡ part_kept parts.old.items rank }
{
    let start = parts.len();
    if start == 0 {
        parts.reserve_exact(count).map_err(|_| NoMemory)?;
    }
    for _ in start..count {
        match parts.push(None) {
            Ok(()) => {}
            Err(_) => return Err(NoMemory),
        }
    }
    Ok(())
}

/// The part is kept for the item at the place, where none is kept yet.
fn fill(parts: &mut Vec<Option<Part>>, at: usize, part: Part)
    requires { at < length parts.old.items }
    ensures filled { part_kept parts.new.items at ≡
        option_or (part_kept parts.old.items at) (Some part) }
    ensures others { (other : ℕ) → other ≢ at →
        part_kept parts.new.items other ≡ part_kept parts.old.items other }
{
    let kept = parts[at];
    parts[at] = kept.or(Some(part));
}

/// A part of a dynamic window: no bytes, and displacements are addresses.
fn is_no_part(part: Part) -> bool
    ensures { result ≡ true → part ≡ no_part }
{
    part.base == 0 && part.bytes == 0 && part.unit == 1
}

/// The part may stand in a window of this flavor.
fn is_part_of(flavor: Flavor, part: Part) -> bool
    ensures { result ≡ true → is_same_flavor flavor DynamicFlavor ≡ true → part ≡ no_part }
{
    match flavor {
        Flavor::Allocate => true,
        Flavor::Create => true,
        Flavor::Dynamic => is_no_part(part),
    }
}

impl Parts {
    /// No rank has arrived.
    pub(crate) fn new(alloc: Global) -> Parts
        ensures { result.parts.items ≡ [] }
    {
        Parts {
            parts: Vec::new(alloc),
        }
    }

    /// There is room for the part of the rank.
    pub(crate) fn reserve(&mut self, rank: u8) -> Result<(), NoMemory>
        ensures room { OnOk result (rank < length self.new.parts.items) }
        ensures same { (layout : Layout) (window : ℕ) (entries : List Act) →
            KeepsParts layout window entries self.old.parts.items →
            KeepsParts layout window entries self.new.parts.items }
    {
        make_room(&mut self.parts, rank as usize + 1)
    }

    /// The rank has arrived at the window's creation with this part. A rank's first arrival counts.
    pub(crate) fn arrive(&mut self, rank: u8, part: Part)
        requires room { rank < length self.old.parts.items }
        ensures { (layout : Layout) (window : ℕ) (entries : List Act) (act : Act)
            (creation : Creation) →
            act.row.rank ≡ rank → act.window ≡ window → act.row.step ≡ ArriveStep →
            creation_of act.row.call ≡ Some creation → part ≡ part_made layout rank act.row.number creation →
            IsInside layout rank part →
            KeepsParts layout window entries self.old.parts.items →
            KeepsParts layout window (entries ++ act ∷ []) self.new.parts.items }
    {
        fill(&mut self.parts, rank as usize, part);
    }

    /// The part of a rank.
    fn part(&self, rank: u8) -> Part
        ensures { result ≡ part_or_none self.now.parts.items rank }
    {
        let brought = match self.parts.get(rank as usize) {
            Some(brought) => *brought,
            None => None,
        };
        match brought {
            Some(part) => part,
            None => Part {
                base: 0,
                bytes: 0,
                unit: 1,
            },
        }
    }

    /// The parts of so many ranks, where each may stand in a window of this flavor.
    fn collected(&self, alloc: Global, flavor: Flavor, ranks: u8) -> Result<Vec<Part>, NoMemory>
        ensures parts { IfOk result (λ parts. parts.items ≡
            parts_or_none self.now.parts.items ranks) }
        ensures dynamic { IfOk result (λ parts. is_same_flavor flavor DynamicFlavor ≡ true →
            (rank : ℕ) → rank < ranks → part_or_none self.now.parts.items rank ≡ no_part) }
    {
        let mut parts = Vec::new(alloc);
        for rank in 0..ranks {
            let part = self.part(rank);
            if !is_part_of(flavor, part) {
                return Err(NoMemory);
            }
            match parts.push(part) {
                Ok(()) => {}
                Err(_) => return Err(NoMemory),
            }
        }
        Ok(parts)
    }

    /// The shape of the window of this flavor, for so many ranks.
    ///
    /// It is also refused where the window is dynamic and a rank brought bytes to it: no creation of a script does.
    pub(crate) fn shape(&self, alloc: Global, flavor: Flavor, ranks: u8) -> Result<Shape, NoMemory>
        ensures { IfOk result (λ shape. (board : BoardState) (row : Row) (creation : Creation) →
            board.ranks ≡ ranks → creation.flavor ≡ flavor → IsLayoutOf board.ranks board.layout →
            KeepsParts board.layout (window_of (rows_on board) row) (acts (rows_on board)) self.now.parts.items →
            IsShapeMade board row creation shape) }
    {
        let parts = self.collected(alloc, flavor, ranks)?;
        Ok(Shape {
            flavor,
            parts: Items::from_vec(parts),
        })
    }
}
