//! Where the items of a rank go.
ghost use Rattle.std.specs.Prelude.{◌≡◌, ℕ, ◌+◌, ◌≤◌, List, [], ◌∷◌, ◌++◌, OnOk};

use crate::items::Item;
use rma_types::NoMemory;

/// Keeps the items of one rank, in order.
pub trait Keep {
    ghost use Rattle.rma_record.specs.declared.items.Item.{Item};

    /// The items that were kept.
    ghost kept: { Self → List Item };

    /// How many more can be kept without taking memory.
    ghost spare: { Self → ℕ };

    /// For how many more items room may be asked.
    ghost free: { Self → ℕ };

    /// The name of the ring through which the items go; empty where there is none.
    ghost home: { Self → List ℕ };

    /// For how many items room may be asked.
    fn free_known(&self) -> u32
        ensures { result ≡ free self.now };

    /// Makes room for at least `more` items.
    fn reserve(&mut self, more: u32) -> Result<(), NoMemory>
        requires { more ≤ free self.old }
        ensures room { OnOk result (more ≤ spare self.new) }
        ensures kept { kept self.new ≡ kept self.old }
        ensures free { free self.new ≡ free self.old }
        ensures home { home self.new ≡ home self.old };

    /// Appends an item. It takes no memory.
    fn keep(&mut self, item: Item)
        requires { 1 ≤ spare self.old }
        ensures kept { kept self.new ≡ kept self.old ++ item ∷ [] }
        ensures spare { spare self.new + 1 ≡ spare self.old }
        ensures free_above { free self.old ≤ free self.new + 1 }
        ensures free_below { free self.new ≤ free self.old }
        ensures home { home self.new ≡ home self.old };
}
