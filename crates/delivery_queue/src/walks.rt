//! The way that was walked last, so that each of its links is looked for once.
ghost use Rattle.std.specs.Prelude.{◌≡◌, ◌<◌, ◌≤◌, List, length, Some};
ghost use Rattle.std.specs.List.{remove};
ghost use Rattle.delivery_queue.specs.Blocks.{accesses_of};
ghost use Rattle.delivery_queue.specs.Walked.{IsWalked};
ghost use Rattle.rank_rules.specs.declared.pending.PendingAccess.{PendingAccess as Access};
ghost use Rattle.rank_rules.specs.Pending.{way, first_in_way as first_in_way_of};

use crate::parts::Part;
use crate::ways::first_in_way;
use std::alloc::Global;
use std::cell::Cell;

/// A way from one pending access to an earlier one, each of which gives way to the next. Where the access at its end is
/// delivered, the others move up by one place, and the gaps between them stay.
#[derive(Debug, Drop)]
pub(crate) struct Walk {
    /// The place where it begins.
    start: usize,
    /// The place where it ends.
    end: usize,
    /// How many places each link leads back, from the first on.
    gaps: Vec<usize>,
    /// The place that a call waited for last, where the next way is likely to begin. No answer depends on it.
    awaited: Cell<usize>,
}

impl Walk {
    /// A way without a link.
    pub(crate) fn none(alloc: Global) -> Walk
        ensures { (pending : List Access) → IsWalked pending result }
    {
        Walk {
            start: 0,
            end: 0,
            gaps: Vec::new(alloc),
            awaited: Cell::new(0),
        }
    }

    /// A call waits for the access at this place.
    pub(crate) fn await_from(&self, at: usize) {
        self.awaited.set(at);
    }

    /// A place as far along the way of the one at a place as is known.
    pub(crate) fn beyond(&self, at: usize) -> usize
        ensures way { (pending : List Access) → IsWalked pending self.now →
            way pending result ≡ way pending at }
        ensures not_after { (pending : List Access) → IsWalked pending self.now → result ≤ at }
    {
        if at == self.start { self.end } else { at }
    }

    /// A way without a link, which begins at this place.
    fn begin_at(&mut self, at: usize)
        ensures { (pending : List Access) → IsWalked pending self.new }
    {
        self.gaps.clear();
        self.start = at;
        self.end = at;
    }

    /// The access at a place is to go.
    fn pass(&mut self, at: usize)
        requires { (pending : List Access) × IsWalked pending self.old }
        ensures { (pending : List Access) → at < length pending → IsWalked pending self.old →
            IsWalked (remove pending at) self.new }
    {
        if self.end == at && at < self.start {
            if let Some(gap) = self.gaps.pop() {
                self.end = at + gap - 1;
                self.start -= 1;
                return;
            }
        }
        self.begin_at(0);
    }

    /// One link more, to an earlier place; `false` where memory runs out, which changes nothing.
    fn add(&mut self, earlier: usize) -> bool
        requires { earlier < self.old.end }
        ensures walked { (pending : List Access) → IsWalked pending self.old →
            first_in_way_of pending self.old.end ≡ Some earlier → IsWalked pending self.new }
        ensures not_after { self.new.end ≤ self.old.end }
    {
        if self.gaps.reserve(1).is_err() {
            return false;
        }
        self.gaps.push_reserved(self.end - earlier);
        self.end = earlier;
        true
    }

    /// Walks on from the end, as far as the accesses give way.
    fn go_on<P: Part>(&mut self, ones: &P)
        requires within { self.old.end < length (P.ones ones.now) }
        requires walked { IsWalked (accesses_of (P.ones ones.now)) self.old }
        ensures { IsWalked (accesses_of (P.ones ones.now)) self.new }
    {
        for _ in 0..self.end {
            match first_in_way(ones, self.end) {
                Some(earlier) => {
                    if !self.add(earlier) {
                        return;
                    }
                }
                None => return,
            }
        }
    }

    /// Walks on behind an access that went, from the place that a call waits for where it gave way to that one.
    fn follow<P: Part>(&mut self, ones: &P, gone: usize)
        requires { IsWalked (accesses_of (P.ones ones.now)) self.old }
        ensures { IsWalked (accesses_of (P.ones ones.now)) self.new }
    {
        let awaited = self.awaited.replace(0);
        if gone < awaited {
            if self.start != awaited - 1 {
                self.begin_at(awaited - 1);
            }
            if self.end < ones.len() {
                self.go_on(ones);
            }
        }
    }

    /// The access at a place goes, and the way is walked on.
    pub(crate) fn remove<P: Part>(&mut self, ones: &mut P, at: usize)
        requires at { at < length (P.ones ones.old) }
        requires walked { IsWalked (accesses_of (P.ones ones.old)) self.old }
        ensures removed { P.ones ones.new ≡ remove (P.ones ones.old) at }
        ensures walked { IsWalked (accesses_of (P.ones ones.new)) self.new }
    {
        self.pass(at);
        ones.remove(at);
        self.follow(ones, at);
    }
}
