//! A whole run.
ghost use Rattle.std.specs.Prelude.{◌≡◌, map, ◌<◌, length, slice_get, OnSome};
ghost use Rattle.std.specs.Option.{option_copied, option_map};
ghost use Rattle.rma_record.specs.Kept.{Kept};

use crate::logs::Log;
use rma_types::Items;
use std::marker::Model;

/// The logs of a run, one for each rank, which contracts see as the list of the lists of items.
#[derive(Debug, Drop)]
pub struct Logs {
    logs: Vec<Log>,
}

impl Model for Logs {
    ghost use Rattle.std.specs.Prelude.{List, map};
    ghost use Rattle.rma_record.specs.Kept.{Kept};
    ghost use Rattle.rma_record.specs.declared.items.Item.{Item};

    ghost Value = { List (List Item) };

    ghost view = { λ a. map (λ (log : Kept). log.items) a.logs.items };
}

impl Logs {
    pub fn from_vec(logs: Vec<Log>) -> Logs
        ensures { result ≡ map (λ (log : Kept). log.items) logs.items }
    {
        Logs { logs }
    }

    pub fn len(&self) -> usize
        ensures { result ≡ length self.now }
    {
        self.logs.len()
    }

    /// The log of a rank.
    pub fn get(&self, rank: usize) -> Option<&Log>
        ensures { option_map (λ (log : Kept). log.items) (option_copied result) ≡
            slice_get self.now rank }
    {
        self.logs.get(rank)
    }
}

/// What a run did: the log of each rank, the final value of each cell, and whether every rank ended.
#[derive(Debug, Drop)]
pub struct Run {
    pub logs: Logs,
    pub memory: Items<u32>,
    pub ended: bool,
}
