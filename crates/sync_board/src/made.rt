//! The window that a creation makes, at its Leave (MPI 3.1, sections 11.2.1 to 11.2.4).
ghost use Rattle.std.specs.Prelude.{◌≡◌, ◌<◌, IfOk};
ghost use Rattle.rank_rules.specs.Windows.{window_number};
ghost use Rattle.board_rules.specs.Entries.{acts, window_of};
ghost use Rattle.sync_board.specs.Asked.{row_asked};
ghost use Rattle.sync_board.specs.Boards.{BoardState, IsLayoutOf, IsMadeBy, rows_on};
ghost use Rattle.sync_board.specs.Named.{KeepsWindows};
ghost use Rattle.sync_board.specs.Rounds.{flavor_in};

use crate::asked::Asked;
use crate::named::Windows;
use rma_types::{Action, Call, Flavor, NoMemory, Step};
use std::alloc::Global;
use window_regions::Shape;

/// The flavor of the window that a call makes.
fn flavor_of(call: &Call) -> Option<Flavor>
    ensures { result ≡ flavor_in call.now }
{
    match call.action() {
        Action::Creates(creation) => Some(creation.flavor),
        Action::Frees { .. }
        | Action::Attaches { .. }
        | Action::Detaches { .. }
        | Action::Synchronises(..)
        | Action::Meets
        | Action::Moves(_)
        | Action::EndsRequest { .. } => None,
    }
}

/// The shape of the window that the entry makes, if it makes one.
pub(crate) fn shape_made(
    alloc: Global,
    asked: &Asked,
    windows: &Windows,
) -> Result<Option<Shape>, NoMemory>
    requires { asked.now.name < 32 }
    ensures { IfOk result (λ made. (board : BoardState) → board.ranks ≡ asked.now.ranks →
        IsLayoutOf board.ranks board.layout →
        window_of (rows_on board) (row_asked asked.now) ≡ window_number asked.now.round asked.now.name →
        KeepsWindows board.layout board.ranks (acts (rows_on board)) windows.now.names.items →
        IsMadeBy board (row_asked asked.now) asked.now.step made) }
{
    match asked.step {
        Step::Arrive => Ok(None),
        Step::One => Ok(None),
        Step::Leave => match flavor_of(asked.call) {
            None => Ok(None),
            Some(flavor) => {
                match windows.shape(alloc, asked.name, asked.round, flavor, asked.ranks) {
                    Ok(shape) => Ok(Some(shape)),
                    Err(_) => Err(NoMemory),
                }
            }
        },
    }
}
