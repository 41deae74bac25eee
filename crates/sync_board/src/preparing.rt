//! All of an entry that may want memory.
ghost use Rattle.std.specs.Prelude.{◌≡◌, ◌<◌, ℕ, List, ◌∷◌, [], ◌++◌, IfOk, OnOk, OnErr};
ghost use Rattle.board_rules.specs.Board.{Allow, decide};
ghost use Rattle.board_rules.specs.Entries.{Row, acts, window_of};
ghost use Rattle.kept_rows.specs.Gifts.{Given};
ghost use Rattle.rma_types.specs.KeptCalls.{kept_call};
ghost use Rattle.kept_rows.specs.KeptCalls.{kept_row};
ghost use Rattle.rank_rules.specs.Windows.{window_number};
ghost use Rattle.sync_board.specs.Asked.{IsAfter, MayBeAsked, row_asked};
ghost use Rattle.sync_board.specs.Boards.{BoardState, IsLayoutOf, IsMadeBy, rows_on};
ghost use Rattle.sync_board.specs.Counted.{KeepsState};
ghost use Rattle.sync_board.specs.Named.{KeepsWindows};
ghost use Rattle.sync_board.specs.Lists.{HasSpace};
ghost use Rattle.entry_gains.specs.Gains.{HasGainsRoom, IsSound, Keeps};

use crate::asked::Asked;
use crate::layouts::KeptLayout;
use crate::lists::EntryList;
use crate::made::shape_made;
use crate::state::State;
use cell_face::Token;
use entry_gains::Gains;
use rma_types::{Call, NoMemory};
use std::alloc::Global;
use window_regions::Shape;

/// What an entry brings that wanted memory: its call without values, and the window that it makes.
#[derive(Drop)]
pub(crate) struct Prepared {
    pub(crate) call: Call,
    pub(crate) made: Option<Shape>,
}

/// The call of an entry as it is kept, and the window that the entry makes.
fn prepare(alloc: Global, asked: &Asked, state: &State) -> Result<Prepared, NoMemory>
    requires { asked.now.name < 32 }
    ensures call { IfOk result (λ prepared. prepared.call ≡ kept_call asked.now.call.now) }
    ensures made { IfOk result (λ prepared. (board : BoardState) → board.ranks ≡ asked.now.ranks →
        IsLayoutOf board.ranks board.layout →
        window_of (rows_on board) (row_asked asked.now) ≡ window_number asked.now.round asked.now.name →
        KeepsWindows board.layout board.ranks (acts (rows_on board)) state.now.windows.names.items →
        IsMadeBy board (row_asked asked.now) asked.now.step prepared.made) }
{
    match shape_made(alloc, asked, &state.windows) {
        Err(_) => Err(NoMemory),
        Ok(made) => match asked.call.copy_without_values(alloc) {
            Err(_) => Err(NoMemory),
            Ok(call) => Ok(Prepared { call, made }),
        },
    }
}

/// Takes all memory that the entry needs in the list and for its gift.
fn reserve<N: Token>(list: &mut EntryList<N>, gains: &mut Gains<N>) -> Result<(), NoMemory>
    ensures rows { list.new.rows.items ≡ list.old.rows.items }
    ensures kept { list.new.kept.items ≡ list.old.kept.items }
    ensures gains { (ranks : ℕ) (entries : List Given) →
        Keeps N.front ranks entries gains.old → Keeps N.front ranks entries gains.new }
    ensures sound { (name : List ℕ) → IsSound N.origin name gains.old →
        IsSound N.origin name gains.new }
    ensures space { OnOk result (HasSpace list.new) }
    ensures room { OnOk result (HasGainsRoom gains.new) }
{
    match list.reserve() {
        Err(_) => Err(NoMemory),
        Ok(()) => gains.reserve(),
    }
}

/// Does all of an entry that was allowed but what can't want memory.
pub(crate) fn prepare_entry<N: Token>(
    alloc: Global,
    asked: &Asked,
    layout: &KeptLayout,
    list: &mut EntryList<N>,
    state: &mut State,
    gains: &mut Gains<N>,
) -> Result<Prepared, NoMemory>
    requires asked { MayBeAsked layout.now asked.now }
    requires name { asked.now.name < 32 }
    ensures rows { list.new.rows.items ≡ list.old.rows.items }
    ensures kept { list.new.kept.items ≡ list.old.kept.items }
    ensures gains { (ranks : ℕ) (entries : List Given) →
        Keeps N.front ranks entries gains.old → Keeps N.front ranks entries gains.new }
    ensures sound { (name : List ℕ) → IsSound N.origin name gains.old →
        IsSound N.origin name gains.new }
    ensures space { OnOk result (HasSpace list.new) }
    ensures room { OnOk result (HasGainsRoom gains.new) }
    ensures call { IfOk result (λ prepared. prepared.call ≡ kept_call asked.now.call.now) }
    ensures made { IfOk result (λ prepared. (board : BoardState) → board.ranks ≡ asked.now.ranks →
        IsLayoutOf board.ranks board.layout →
        window_of (rows_on board) (row_asked asked.now) ≡ window_number asked.now.round asked.now.name →
        KeepsWindows board.layout board.ranks (acts (rows_on board)) state.old.windows.names.items →
        IsMadeBy board (row_asked asked.now) asked.now.step prepared.made) }
    ensures entered { OnOk result ((rows : List Row) → IsAfter rows asked.now →
        decide asked.now.ranks rows (row_asked asked.now) ≡ Allow →
        KeepsState layout.now asked.now.ranks rows state.old →
        KeepsState layout.now asked.now.ranks (rows ++ kept_row (row_asked asked.now) ∷ []) state.new) }
    ensures unchanged { OnErr result ((rows : List Row) → IsAfter rows asked.now →
        KeepsState layout.now asked.now.ranks rows state.old →
        KeepsState layout.now asked.now.ranks rows state.new) }
{
    match prepare(alloc, asked, state) {
        Err(_) => Err(NoMemory),
        Ok(prepared) => match reserve(list, gains) {
            Err(_) => Err(NoMemory),
            Ok(()) => match state.enter(alloc, asked, layout) {
                Err(_) => Err(NoMemory),
                Ok(()) => Ok(prepared),
            },
        },
    }
}
