//! The ranges of a rank's memory that are attached to one dynamic window: MPI 3.1, section 11.2.4.
ghost use Rattle.std.specs.Prelude.{◌≡◌, ◌==◌, ◌+◌, ◌^◌, ◌<◌, not, false, [], ◌∷◌, ◌++◌, filter, OnOk, OnErr};
ghost use Rattle.rank_rules.specs.Ranges.{covers as do_they_cover, is_taken};

use crate::own::OwnRanges;
use rma_types::NoMemory;
use std::alloc::Global;
use std::marker::Model;

/// The ranges that one rank attached to one window, in the order in which they came.
#[derive(Debug, Drop)]
pub struct Attached {
    ranges: OwnRanges,
}

impl Model for Attached {
    ghost use Rattle.std.specs.Prelude.{List, map};
    ghost use Rattle.std.specs.List.{AllByRecursion};
    ghost use Rattle.rank_rules.specs.Ranges.{Range};
    ghost use Rattle.window_regions.specs.Indexed.{IsAttachedAlone};

    ghost Value = { List Range };

    ghost view = { λ a. map (λ own. own.range) a.ranges };

    ghost invariant = { λ a. AllByRecursion IsAttachedAlone a.ranges };
}

/// All of them count as attached to the window w0.
impl Attached {
    /// No ranges. It takes no memory.
    pub fn new(alloc: Global) -> Attached
        ensures { result ≡ [] }
    {
        Attached {
            ranges: OwnRanges::new(alloc),
        }
    }

    /// A range comes (MPI 3.1, section 11.2.4): so many bytes from the base on, at least 1, of which none is in a range
    /// that is there.
    ///
    /// `Err` changes nothing.
    pub fn add(&mut self, base: u32, bytes: u32) -> Result<(), NoMemory>
        requires some { 0 < bytes }
        requires end { base + bytes < 2 ^ 32 }
        requires apart { is_taken self.old (record { base = base; bytes = bytes }) ≡ false }
        ensures ok { OnOk result (self.new ≡ self.old ++
            record { base = base; bytes = bytes } ∷ []) }
        ensures err { OnErr result (self.new ≡ self.old) }
    {
        self.ranges.attach(0, base, bytes)
    }

    /// Whether a byte of the range, so many bytes from the base on, lies in one of the ranges.
    pub fn is_taken(&self, base: u32, bytes: u32) -> bool
        ensures { result ≡ is_taken self.now (record { base = base; bytes = bytes }) }
    {
        self.ranges.is_taken(base, bytes)
    }

    /// The range that begins at the base goes (MPI 3.1, section 11.2.4). Where none begins there, nothing changes.
    pub fn remove(&mut self, base: u32)
        ensures { self.new ≡ filter (λ range. not (range.base == base)) self.old }
    {
        self.ranges.detach(0, base);
    }

    /// Whether each of so many bytes from an address on lies in one of the ranges, which may adjoin (MPI 3.1, section
    /// 11.2.4). Of 0 bytes it is true.
    pub fn covers(&self, lo: u32, len: u32) -> bool
        ensures { result ≡ do_they_cover self.now lo len }
    {
        self.ranges.covers(0, lo, len)
    }
}
