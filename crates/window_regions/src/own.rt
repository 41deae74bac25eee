//! The ranges of a rank's own space that belong to live windows.
ghost use Rattle.std.specs.Prelude.{◌≡◌, ◌==◌, ◌&&◌, ◌+◌, ◌^◌, ◌<◌, not, true, false};
ghost use Rattle.std.specs.Prelude.{[], ◌∷◌, ◌++◌, map, filter, OnOk, OnErr};
ghost use Rattle.std.specs.List.{list_any};
ghost use Rattle.rank_rules.specs.Ranges.{covers as do_they_cover, do_overlap, is_taken as is_taken_by};
ghost use Rattle.rank_rules.specs.Windows.{is_attached_from, range_made};

use crate::region::Region;
use crate::sorted::{do_any_overlap, do_cover, does_any_begin, first_past, is_attached_at};
use rma_types::{Flavor, NoMemory, Part};
use std::alloc::Global;
use std::marker::Model;

/// The ranges, in the order in which they came.
///
/// Those of created windows, of which there is at most one a window, and those that are attached, which have no byte in
/// common and are in ascending order, stand apart once more, for searches.
#[derive(Debug, Drop)]
pub struct OwnRanges {
    ranges: Vec<Region>,
    created: Vec<Region>,
    attached: Vec<Region>,
}

impl Model for OwnRanges {
    ghost use Rattle.std.specs.Prelude.{List};
    ghost use Rattle.rank_rules.specs.Windows.{OwnRange};
    ghost use Rattle.window_regions.specs.Indexed.{IsIndexed};

    ghost Value = { List OwnRange };

    ghost view = { λ r. r.ranges.items };

    ghost invariant = { λ r. IsIndexed r.ranges.items r.created.items r.attached.items };
}

impl OwnRanges {
    /// No ranges. It takes no memory.
    pub fn new(alloc: Global) -> OwnRanges
        ensures { result ≡ [] }
    {
        OwnRanges {
            ranges: Vec::new(alloc),
            created: Vec::new(alloc),
            attached: Vec::new(alloc),
        }
    }

    /// Whether a range that is attached to the window begins at the base.
    pub fn has_attached(&self, win: u8, base: u32) -> bool
        ensures { result ≡ list_any (is_attached_from win base) self.now }
    {
        does_any_begin(self.attached.as_slice(), win, base)
    }

    /// Whether each of the bytes lies in a range that is attached to the window.
    pub fn covers(&self, win: u8, lo: u32, len: u32) -> bool
        ensures { result ≡ do_they_cover (map (λ own. own.range)
            (filter (λ own. own.is_attached && own.win == win) self.now)) lo len }
    {
        do_cover(self.attached.as_slice(), win, lo, len)
    }

    /// Whether a byte of the range lies in one of the ranges.
    pub fn is_taken(&self, base: u32, bytes: u32) -> bool
        ensures { result ≡ is_taken_by (map (λ own. own.range) self.now)
            (record { base = base; bytes = bytes }) }
    {
        if bytes == 0 {
            return false;
        }
        does_any_overlap(self.created.as_slice(), base, bytes)
            || do_any_overlap(self.attached.as_slice(), base, bytes)
    }

    /// The range of a created window comes to the ranges. `Err` changes nothing.
    pub fn create(&mut self, win: u8, base: u32, bytes: u32) -> Result<(), NoMemory>
        requires { base + bytes < 2 ^ 32 }
        ensures ok { OnOk result (self.new ≡ self.old ++ record {
          win = win;
          range = record { base = base; bytes = bytes };
          is_attached = false;
        } ∷ []) }
        ensures err { OnErr result (self.new ≡ self.old) }
    {
        if self.ranges.reserve(1).is_err() || self.created.reserve(1).is_err() {
            return Err(NoMemory);
        }
        let range = Region::new(win, base, bytes, false);
        self.ranges.push_reserved(range);
        self.created.push_reserved(range);
        Ok(())
    }

    /// A range that is attached to the window comes to the ranges: it has bytes, and none of them is taken.
    ///
    /// `Err` changes nothing.
    pub fn attach(&mut self, win: u8, base: u32, bytes: u32) -> Result<(), NoMemory>
        requires some { 0 < bytes }
        requires end { base + bytes < 2 ^ 32 }
        requires apart { is_taken_by (map (λ own. own.range) self.old)
            (record { base = base; bytes = bytes }) ≡ false }
        ensures ok { OnOk result (self.new ≡ self.old ++ record {
          win = win;
          range = record { base = base; bytes = bytes };
          is_attached = true;
        } ∷ []) }
        ensures err { OnErr result (self.new ≡ self.old) }
    {
        if self.ranges.reserve(1).is_err() {
            return Err(NoMemory);
        }
        let range = Region::new(win, base, bytes, true);
        let at = first_past(self.attached.as_slice(), base);
        match self.attached.insert(at, range) {
            Ok(()) => {
                self.ranges.push_reserved(range);
                Ok(())
            }
            Err(_) => Err(NoMemory),
        }
    }

    /// The range that begins at the base goes, if it is attached to the window.
    pub fn detach(&mut self, win: u8, base: u32)
        ensures { self.new ≡ filter (λ own. not (is_attached_from win base own)) self.old }
    {
        detach_from(&mut self.ranges, win, base);
        detach_from(&mut self.created, win, base);
        detach_from(&mut self.attached, win, base);
    }

    /// All ranges of the window go.
    pub fn free(&mut self, win: u8)
        ensures { self.new ≡ filter (λ own. not (own.win == win)) self.old }
    {
        free_from(&mut self.ranges, win);
        free_from(&mut self.created, win);
        free_from(&mut self.attached, win);
    }
}

/// The range of the space over which a window is created comes to the ranges.
pub fn make_range(own: &mut OwnRanges, flavor: Flavor, win: u8, part: Part) -> Result<(), NoMemory>
    requires { part.base + part.bytes < 2 ^ 32 }
    ensures ok { OnOk result (own.new ≡ own.old ++ range_made flavor win part) }
    ensures err { OnErr result (own.new ≡ own.old) }
{
    match flavor {
        Flavor::Allocate => Ok(()),
        Flavor::Create => own.create(win, part.base, part.bytes),
        Flavor::Dynamic => Ok(()),
    }
}

fn does_any_overlap(ranges: &[Region], base: u32, bytes: u32) -> bool
    ensures { result ≡ list_any (λ own. do_overlap
        (record { base = base; bytes = bytes }) own.range) ranges.now }
{
    ranges.iter().any(|range| does_overlap(range, base, bytes))
}

fn does_overlap(range: &Region, base: u32, bytes: u32) -> bool
    ensures { result ≡ do_overlap (record { base = base; bytes = bytes }) range.now.range }
{
    let end = u64::from(base) + u64::from(bytes);
    bytes > 0 && range.base() < range.end() && base < range.end() && u64::from(range.base()) < end
}

fn detach_from(ranges: &mut Vec<Region>, win: u8, base: u32)
    ensures { ranges.new.items ≡ filter (λ own.
        not (is_attached_from win base own)) ranges.old.items }
{
    ranges.retain(
        |range: &Region| -> bool
            ensures { result ≡ not (is_attached_from win base range.now) }
        { !is_attached_at(range, win, base) },
    );
}

fn free_from(ranges: &mut Vec<Region>, win: u8)
    ensures { ranges.new.items ≡ filter (λ own. not (own.win == win)) ranges.old.items }
{
    ranges.retain(
        |range: &Region| -> bool
            ensures { result ≡ not (range.now.win == win) }
        { range.win() != win },
    );
}
