//! What a play is made of: cells, the memories of ranks, and the board.
ghost use Rattle.std.specs.Prelude.{◌≡◌, ◌<◌, ◌≤◌, ◌^◌, ◌++◌, ◌∷◌, [], length, map, sum, IfOk, IfSome};
ghost use Rattle.call_rules.specs.Layout.{layout as memory_layout};
ghost use Rattle.call_rules.specs.WellFormed.{IsWellFormed};
ghost use Rattle.cell_face.specs.Faces.{Unwritten, cell_count};
ghost use Rattle.cell_words.specs.Holders.{face_of, name_of, new_pass};
ghost use Rattle.engine_tests.specs.Seated.{IsNewPass, first_board};

use cell_face::Memory;
use cell_words::{CellNote, CellPass, Cells};
use moving_memory::MovingMemory;
use rma_types::{Layout, NoMemory, Script};
use script_reader::parse;
use std::alloc::Global;
use sync_board::Board;

/// The script that a text says, if it says one.
pub fn script_of(alloc: Global, text: &str) -> Option<Script>
    ensures { IfSome result IsWellFormed }
{
    match parse(alloc, text.as_bytes()) {
        Ok(script) => Some(script),
        Err(_) => None,
    }
}

/// Cells of no updates, enough for every script, and a pass for each share.
pub fn new_cells(alloc: Global, shares: &[u32]) -> Result<(Cells, Vec<CellPass>), NoMemory>
    requires { sum shares.now < 2 ^ 32 }
    ensures cells { IfOk result (λ made. length made.0.init ≡ 16384) }
    ensures passes { IfOk result (λ made.
        made.1.items ≡ map (new_pass made.0.table made.0.init) shares.now) }
{
    let zeros = vec![in alloc; 0; 16384].map_err(|_| NoMemory)?;
    Cells::new(alloc, &zeros, shares)
}

/// The last two passes.
pub fn last_two(passes: &mut Vec<CellPass>) -> Result<(CellPass, CellPass), NoMemory>
    ensures { IfOk result (λ pair.
        passes.old.items ≡ passes.new.items ++ pair.0 ∷ pair.1 ∷ []) }
{
    let second = passes.pop().ok_or(NoMemory)?;
    let first = passes.pop().ok_or(NoMemory)?;
    Ok((first, second))
}

/// The memory of a rank with the first pass, in which updates of the second come between.
pub fn new_memory<'c>(
    cells: &'c Cells,
    passes: (CellPass, CellPass),
    late: Vec<bool>,
) -> MovingMemory<'c>
    requires own { IsNewPass cells.now passes.0 }
    requires other { IsNewPass cells.now passes.1 }
    ensures cells { cell_count (face_of result) ≡ length cells.now.init }
    ensures share { (face_of result).share ≡ passes.0.view.share }
    ensures name { (face_of result).name ≡ name_of cells.now.table }
{
    let (own, other) = passes;
    MovingMemory::new(cells.seat(own), cells.seat(other), late)
}

/// A board without entries, whose tokens come from this memory.
pub fn new_board<'c>(
    alloc: Global,
    script: &Script,
    layout: &Layout,
    memory: &mut MovingMemory<'c>,
) -> Result<Board<CellNote<'c>>, NoMemory>
    requires formed { IsWellFormed script.now }
    requires layout { layout.now ≡ memory_layout script.now }
    ensures board { IfOk result (λ board. board ≡
        first_board script.now (face_of memory.old).name) }
    ensures memory { Unwritten (face_of memory.old) (face_of memory.new) }
{
    let note = memory.note();
    Board::new(alloc, script.ranks, layout, note)
}
