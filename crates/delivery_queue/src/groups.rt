//! Pending accesses in groups of parts, with the marks of all, so that a search passes over most groups.
ghost use Rattle.std.specs.Prelude.{◌≡◌, ◌<◌, ◌++◌, [], ◌∷◌, length, slice_get, slice_set, Some, IfSome, OnOk, OnErr};
ghost use Rattle.std.specs.List.{position, remove, All};
ghost use Rattle.delivery_queue.specs.declared.begun.Begun.{Begun as BegunOne};
ghost use Rattle.delivery_queue.specs.Blocks.{ones_in};
ghost use Rattle.delivery_queue.specs.Marked.{IsMarked};

use crate::begun::Begun;
use crate::marks::Marks;
use crate::parts::Part;
use crate::searches::{begun_at, first, push_to, remove_at, touch_at};
use crate::sought::Sought;
use rank_rules::PendingAccess;
use rma_types::NoMemory;
use std::alloc::Global;
use std::marker::Model;

/// How many parts a group is filled with.
const GROUP_LEN: usize = 64;

/// Pending accesses in parts, one part after another. Each has the marks; a mark may be left of one that was removed.
#[derive(Debug, Drop)]
pub(crate) struct Group<P: Part> {
    parts: Vec<P>,
    marks: Marks,
    /// The number of accesses.
    count: usize,
}

impl<P: Part> Model for Group<P> {
    ghost use Rattle.std.specs.Prelude.{List};
    ghost use Rattle.delivery_queue.specs.declared.begun.Begun.{Begun as One};
    ghost use Rattle.delivery_queue.specs.Blocks.{ones_in};
    ghost use Rattle.delivery_queue.specs.Marked.{IsKept};

    ghost Value = { List One };

    ghost view = { λ group. ones_in P.ones group.parts.items };

    ghost invariant = { λ group. IsKept group.marks group.count (ones_in P.ones group.parts.items) };
}

/// The marks of all parts.
fn marks_of<P: Part>(parts: &[P]) -> Marks
    ensures { All (λ (one : BegunOne). IsMarked result one.access) (ones_in P.ones parts.now) }
{
    let mut marks = Marks::none();
    for part in parts {
        marks = marks.both(part.marks());
    }
    marks
}

impl<P: Part> Part for Group<P> {
    ghost ones = { λ group. group };

    fn new(alloc: Global) -> Group<P> {
        Group {
            parts: Vec::new(alloc),
            marks: Marks::none(),
            count: 0,
        }
    }

    fn len(&self) -> usize {
        self.count
    }

    fn is_full(&self) -> bool {
        let count = self.parts.len();
        GROUP_LEN <= count && self.parts[count - 1].is_full()
    }

    fn marks(&self) -> Marks {
        self.marks
    }

    fn first(&self, sought: &Sought) -> Option<usize> {
        if self.marks.may_hold(sought) {
            first(&self.parts, sought)
        } else {
            None
        }
    }

    fn at(&self, at: usize) -> Begun {
        begun_at(&self.parts, at)
    }

    fn push(&mut self, access: PendingAccess) -> Result<(), NoMemory> {
        if self.count == usize::MAX {
            return Err(NoMemory);
        }
        push_to(&mut self.parts, access)?;
        self.count += 1;
        self.marks = self.marks.with(&access);
        Ok(())
    }

    fn remove(&mut self, at: usize) {
        let changed = remove_at(&mut self.parts, at);
        self.count -= 1;
        if changed {
            self.marks = marks_of(&self.parts);
        }
    }

    fn touch(&mut self, at: usize, count: u32) {
        touch_at(&mut self.parts, at, count);
    }
}
