//! Clocks by rank, and the test of two names.
ghost use Rattle.std.specs.Prelude.{◌≡◌, ◌≤◌, [], length, nat_le, slice_index, true, false};
ghost use Rattle.std.specs.List.{list_any};
ghost use Rattle.std.specs.List.Sorted.{IsPartitionPoint};
ghost use Rattle.vector_clocks.specs.Marks.{AreSorted, before_in, IsSorted, is_marked};
ghost use Rattle.vector_clocks.specs.declared.marks.Mark.{Mark as MarkValue};

use rma_types::{Id, Items};
use std::alloc::Global;
use std::marker::Model;

/// The clock of an entry: the index of its item in its rank's log, and for each rank how many items of that rank's
/// log are before the entry or are it.
#[derive(Clone, Copy, Debug, PartialEq, Eq)]
pub struct Mark {
    pub index: u32,
    pub counts: [u32; 16],
}

/// The clocks of a run, which contracts see as the list of each rank's marks, in the order of its log.
#[derive(Debug, Drop)]
pub struct Clocks {
    ranks: Vec<Items<Mark>>,
}

impl Model for Clocks {
    ghost use Rattle.std.specs.Prelude.{List, map};
    ghost use Rattle.vector_clocks.specs.declared.marks.Mark.{Mark};

    ghost Value = { List (List Mark) };

    ghost use Rattle.vector_clocks.specs.Marks.{AreSorted};

    ghost view = { λ clocks. clocks.ranks.items };

    ghost invariant = { λ clocks. AreSorted (clocks.ranks.items) };
}

/// The number of a rank in a clock; 0 where there is no such rank.
pub(crate) fn count_at(mark: &Mark, rank: u8) -> u32
    ensures { result ≡ slice_index mark.now.counts rank }
{
    match mark.counts.get(rank as usize) {
        Some(count) => *count,
        None => 0,
    }
}

/// How many of the marks stand at or before an index.
fn marks_within(marks: &[Mark], index: u32) -> usize
    requires { IsSorted marks.now }
    ensures bound { result ≤ length marks.now }
    ensures point { IsPartitionPoint (λ (mark : MarkValue). nat_le mark.index index ≡ true)
        (λ (mark : MarkValue). nat_le mark.index index ≡ false) marks.now result }
{
    marks.partition_point(|mark| mark.index <= index)
}

/// Whether a mark at or before the index counts the item.
fn is_counted(marks: &[Mark], a: Id, index: u32) -> bool
    requires { IsSorted marks.now }
    ensures { result ≡ list_any (is_marked a index) marks.now }
{
    let within = marks_within(marks, index);
    if within == 0 {
        return false;
    }
    let last = marks[within - 1];
    a.index < count_at(&last, a.rank)
}

impl Clocks {
    /// The clocks of a run without entries of the board: items are in order by their logs alone.
    pub fn without_entries(alloc: Global) -> Clocks
        ensures { result ≡ [] }
    {
        Clocks {
            ranks: Vec::new(alloc),
        }
    }

    /// The clocks with these lists of marks, one for each rank.
    pub(crate) fn from_lists(ranks: Vec<Items<Mark>>) -> Clocks
        requires { AreSorted ranks.items }
        ensures { result ≡ ranks.items }
    {
        Clocks { ranks }
    }

    /// Whether the first item is before the second or is it, by the order of the run whose clocks these are (MPI
    /// 3.1, section 11.7, in this project's profile). It takes no memory.
    pub fn before(&self, a: Id, b: Id) -> bool
        ensures { result ≡ before_in self.now a b }
    {
        if a.rank == b.rank && a.index <= b.index {
            return true;
        }
        match self.ranks.get(b.rank as usize) {
            Some(marks) => is_counted(marks.as_slice(), a, b.index),
            None => false,
        }
    }
}
