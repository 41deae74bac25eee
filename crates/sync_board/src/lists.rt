//! The entries, in the order of their places.
ghost use Rattle.std.specs.Prelude.{◌≡◌, ◌∷◌, [], ◌++◌, ◌<◌, length, map, OnOk};

use crate::answers::EntryRow;
use cell_face::Token;
use rma_types::{Call, NoMemory};
use std::alloc::Global;

/// What is kept of an entry beside its row: the call without its values, and the gift.
#[derive(Drop)]
pub(crate) struct Kept<N: Token> {
    pub(crate) call: Call,
    pub(crate) gift: Option<N>,
}

/// The rows of the entries, and what is kept of each.
#[derive(Drop)]
pub(crate) struct EntryList<N: Token> {
    pub(crate) rows: Vec<EntryRow>,
    pub(crate) kept: Vec<Kept<N>>,
}

impl<N: Token> EntryList<N> {
    ghost use Rattle.std.specs.Option.{option_map};
    ghost use Rattle.sync_board.specs.Lists.{HasSpace, IsList, entries_in};

    pub(crate) fn new(alloc: Global) -> EntryList<N>
        ensures rows { result.rows.items ≡ [] }
        ensures kept { result.kept.items ≡ [] }
    {
        EntryList {
            rows: Vec::new(alloc),
            kept: Vec::new(alloc),
        }
    }

    /// Takes all memory that the next entry needs.
    pub(crate) fn reserve(&mut self) -> Result<(), NoMemory>
        ensures room { OnOk result (HasSpace self.new) }
        ensures rows { self.new.rows.items ≡ self.old.rows.items }
        ensures kept { self.new.kept.items ≡ self.old.kept.items }
    {
        if self.rows.len() >= u32::MAX as usize {
            return Err(NoMemory);
        }
        match self.rows.reserve(1) {
            Ok(()) => {}
            Err(_) => return Err(NoMemory),
        }
        match self.kept.reserve(1) {
            Ok(()) => Ok(()),
            Err(_) => Err(NoMemory),
        }
    }

    /// One entry more.
    pub(crate) fn push(&mut self, row: EntryRow, call: Call, gift: Option<N>)
        requires { HasSpace self.old }
        ensures rows { self.new.rows.items ≡ self.old.rows.items ++ row ∷ [] }
        ensures kept { self.new.kept.items ≡ self.old.kept.items ++
            record { call = call; gift = gift } ∷ [] }
    {
        match self.rows.push(row) {
            Ok(()) => {}
            Err(_) => unreachable!(),
        }
        match self.kept.push(Kept { call, gift }) {
            Ok(()) => {}
            Err(_) => unreachable!(),
        }
    }
}
