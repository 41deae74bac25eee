//! Pending accesses in blocks, each with the marks of its accesses, so that a search passes over most blocks.
ghost use Rattle.std.specs.Prelude.{◌≡◌, ◌<◌, ◌++◌, [], ◌∷◌, length, slice_get, slice_set, Some, IfSome, OnOk, OnErr};
ghost use Rattle.std.specs.List.{position, remove, All};
ghost use Rattle.delivery_queue.specs.declared.begun.Begun.{Begun as BegunOne};
ghost use Rattle.delivery_queue.specs.Marked.{IsMarked};
ghost use Rattle.delivery_queue.specs.Soughts.{is_sought as is_one_sought};

use crate::begun::Begun;
use crate::marks::Marks;
use crate::parts::Part;
use crate::sought::{Sought, is_sought};
use rank_rules::PendingAccess;
use rma_types::NoMemory;
use std::alloc::Global;
use std::marker::Model;

/// How many accesses a block is filled with.
const BLOCK_LEN: usize = 64;

/// Some pending accesses in the order of their Issues. Each has its marks; a mark may be left of one that was removed.
#[derive(Debug, Drop)]
pub(crate) struct Block {
    ones: Vec<Begun>,
    marks: Marks,
}

impl Model for Block {
    ghost use Rattle.std.specs.Prelude.{List};
    ghost use Rattle.std.specs.List.{All};
    ghost use Rattle.delivery_queue.specs.declared.begun.Begun.{Begun as One};
    ghost use Rattle.delivery_queue.specs.Marked.{IsMarked};

    ghost Value = { List One };

    ghost view = { λ block. block.ones.items };

    ghost invariant = { λ block. All (λ (one : One). IsMarked block.marks one.access) block.ones.items };
}

/// The marks of some accesses.
fn marks_of(ones: &[Begun]) -> Marks
    ensures { All (λ (one : BegunOne). IsMarked result one.access) ones.now }
{
    let mut marks = Marks::none();
    for one in ones {
        marks = marks.with(&one.access);
    }
    marks
}

/// The place of the first access that is sought.
fn first_of(ones: &[Begun], sought: &Sought) -> Option<usize>
    ensures place { result ≡ position (λ (one : BegunOne). is_one_sought sought.now one.access)
        ones.now }
    ensures within { IfSome result (λ at. at < length ones.now) }
{
    ones.iter().position(|one| is_sought(sought, &one.access))
}

impl Part for Block {
    ghost ones = { λ block. block };

    fn new(alloc: Global) -> Block {
        Block {
            ones: Vec::new(alloc),
            marks: Marks::none(),
        }
    }

    fn len(&self) -> usize {
        self.ones.len()
    }

    fn is_full(&self) -> bool {
        BLOCK_LEN <= self.ones.len()
    }

    fn marks(&self) -> Marks {
        self.marks
    }

    fn first(&self, sought: &Sought) -> Option<usize> {
        if self.marks.may_hold(sought) {
            first_of(&self.ones, sought)
        } else {
            None
        }
    }

    fn at(&self, at: usize) -> Begun {
        self.ones[at]
    }

    fn push(&mut self, access: PendingAccess) -> Result<(), NoMemory> {
        self.ones.reserve(1).map_err(|_| NoMemory)?;
        self.ones.push_reserved(Begun { access, touched: 0 });
        self.marks = self.marks.with(&access);
        Ok(())
    }

    fn remove(&mut self, at: usize) {
        self.ones.remove(at);
        self.marks = marks_of(&self.ones);
    }

    fn touch(&mut self, at: usize, count: u32) {
        self.ones[at].touched = count;
    }
}
