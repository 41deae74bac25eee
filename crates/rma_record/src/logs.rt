//! A log in memory.
ghost use Rattle.std.specs.Prelude.{◌≡◌, [], ◌∷◌, ◌++◌, ◌≤◌, OnErr};

use crate::items::Item;
use crate::keeps::Keep;
use rma_types::NoMemory;
use std::alloc::Global;
use std::marker::Model;

/// The items of one rank, in memory. It grows by doubling.
#[derive(Debug, Drop)]
pub struct Log {
    items: Vec<Item>,
}

impl Model for Log {
    ghost use Rattle.std.specs.Prelude.{◌-◌, ◌≤◌};
    ghost use Rattle.std.specs.Vec.{vec_len, vec_capacity};
    ghost use Rattle.rma_record.specs.Kept.{Kept};

    ghost Value = { Kept };

    ghost view = { λ log. record { items = log.items.items; spare = vec_capacity log.items - vec_len log.items } };
}

impl Log {
    /// A log without items. It takes no memory.
    pub fn new(alloc: Global) -> Log
        ensures { result.items ≡ [] }
    {
        Log {
            items: Vec::new(alloc),
        }
    }

    /// The items, in the order in which they were kept.
    pub fn items(&self) -> &[Item]
        ensures { result.now ≡ self.now.items }
    {
        self.items.as_slice()
    }
}

impl Keep for Log {
    ghost kept = { λ log. log.items };

    ghost spare = { λ log. log.spare };

    ghost free = { λ _. 4294967295 };

    ghost home = { λ _. [] };

    fn free_known(&self) -> u32 {
        u32::MAX
    }

    fn reserve(&mut self, more: u32) -> Result<(), NoMemory> {
        match self.items.reserve(more as usize) {
            Ok(()) => Ok(()),
            Err(_) => Err(NoMemory),
        }
    }

    fn keep(&mut self, item: Item) {
        self.items.push_reserved(item);
    }
}
