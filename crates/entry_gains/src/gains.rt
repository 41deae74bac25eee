//! What a next entry gains.
ghost use Rattle.std.specs.Prelude.{◌≡◌, ◌<◌, ◌≤◌, ℕ, List, [], ◌∷◌, ◌++◌, IfSome, OnOk};
ghost use Rattle.std.specs.Option.{option_map};
ghost use Rattle.board_rules.specs.Entries.{Row};
ghost use Rattle.kept_rows.specs.Gifts.{Given, gained_by};

use crate::deeds::deed_of;
use crate::ledger::Ledger;
use crate::slots::Slot;
use crate::tables::SideKey;
use crate::tokens::{fill_gift, gather};
use cell_face::Token;
use rma_types::{Call, NoMemory, Step};
use std::alloc::Global;
use std::collections::HashMap;

/// What the ranks gave with the entries of the board, so that a next entry gains the gifts of exactly those from
/// which an edge leads to it (MPI 3.1, sections 11.5 and 11.7, in this project's profile of order).
///
/// Its clauses speak of any list of entries that it keeps (`Keeps`). It keeps no list: a gift goes into the slots of
/// its entry, and a next entry gains from at most 32 slots.
#[derive(Drop)]
pub struct Gains<N: Token> {
    ranks: u8,
    count: u32,
    ledger: Ledger,
    tokens: HashMap<Slot, N>,
    root: N,
}

impl<N: Token> Gains<N> {
    ghost use Rattle.entry_gains.specs.Gains.{HasGainsRoom, IsNext, IsSound, IsWhole, Keeps, one_more, row_of};

    /// No entry yet, for up to 16 ranks. The root is a token of the memory from which all gifts come; it is no gift.
    pub fn new(alloc: Global, ranks: u8, root: N) -> Gains<N>
        requires { ranks ≤ 16 }
        ensures keeps { Keeps N.front ranks [] result }
        ensures sound { IsSound N.origin (N.origin root) result }
    {
        Gains {
            ranks,
            count: 0,
            ledger: Ledger::new(alloc),
            tokens: HashMap::new(alloc),
            root,
        }
    }

    /// Takes all memory that the next `put` needs. Where memory or a count is at its end, what is kept stays.
    pub fn reserve(&mut self) -> Result<(), NoMemory>
        ensures room { OnOk result (HasGainsRoom self.new) }
        ensures keeps { (ranks : ℕ) (entries : List Given) →
            Keeps N.front ranks entries self.old → Keeps N.front ranks entries self.new }
        ensures sound { (name : List ℕ) → IsSound N.origin name self.old →
            IsSound N.origin name self.new }
    {
        if self.count == u32::MAX {
            return Err(NoMemory);
        }
        self.ledger.reserve()?;
        match self.tokens.reserve(32) {
            Ok(()) => Ok(()),
            Err(_) => Err(NoMemory),
        }
    }

    /// What a next entry gains: this step of a call of a rank below 16, on the window of this number. It is a token of
    /// the merged gifts of those earlier entries from which an edge leads to it, and none where there is no such gift.
    /// What is kept stays.
    pub fn gained(&mut self, rank: u8, window: u32, call: &Call, step: Step) -> Option<N>
        requires { IsWhole N.origin self.old }
        ensures gains { (ranks : ℕ) (entries : List Given) (number : ℕ) →
            IsNext ranks entries (row_of rank number call.now step) window → Keeps N.front ranks entries self.old →
            option_map N.front result ≡ gained_by ranks entries (row_of rank number call.now step) }
        ensures origin { (name : List ℕ) →
            IsSound N.origin name self.old → IfSome result (λ token. N.origin token ≡ name) }
        ensures keeps { (ranks : ℕ) (entries : List Given) →
            Keeps N.front ranks entries self.old → Keeps N.front ranks entries self.new }
        ensures sound { (name : List ℕ) → IsSound N.origin name self.old →
            IsSound N.origin name self.new }
        ensures room { HasGainsRoom self.old → HasGainsRoom self.new }
    {
        let key = SideKey { window, rank };
        let deed = deed_of(self.ranks, call);
        let plan = self.ledger.gained_plan(key, step, deed);
        gather(&mut self.tokens, &plan, &self.root)
    }

    /// Puts an entry at the end: the gift that its rank gave with it, if any.
    pub fn put(&mut self, rank: u8, window: u32, call: &Call, step: Step, gift: Option<N>)
        requires room { HasGainsRoom self.old }
        requires whole { IsWhole N.origin self.old }
        requires gift { IfSome gift (λ token. IsSound N.origin (N.origin token) self.old) }
        ensures keeps { (ranks : ℕ) (entries : List Given) (number : ℕ) →
            IsNext ranks entries (row_of rank number call.now step) window → Keeps N.front ranks entries self.old →
            let row = row_of rank number call.now step in
            Keeps N.front ranks (one_more entries row (option_map N.front gift)) self.new }
        ensures sound { (name : List ℕ) → IsSound N.origin name self.old →
            IsSound N.origin name self.new }
    {
        let key = SideKey { window, rank };
        let deed = deed_of(self.ranks, call);
        let plan = self.ledger.given_plan(key, step, deed);
        fill_gift(&mut self.tokens, &plan, gift);
        self.ledger.add(key, step, &deed);
        self.count += 1;
    }
}
