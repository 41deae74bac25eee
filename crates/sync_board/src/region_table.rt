//! The ranges that the ranks have attached to one window (MPI 3.1, section 11.2.4).
ghost use Rattle.std.specs.Prelude.{◌≡◌, ℕ, ◌+◌, ◌^◌, ◌<◌, List, [], ◌∷◌, ◌++◌, OnOk, OnErr};
ghost use Rattle.rank_rules.specs.Ranges.{covers as do_they_cover};
ghost use Rattle.sync_board.specs.HeldHere.{KeepsRegions};
ghost use Rattle.sync_board.specs.KeptRanges.{KeepsRanges, without};
ghost use Rattle.sync_board.specs.Sides.{Done};
ghost use Rattle.sync_board.specs.Tables.{IsSameFor};

use crate::grown::{Idle, grow_to};
use crate::regions::Regions;
use rma_types::NoMemory;
use std::alloc::Global;

impl Idle for Regions {
    ghost is_idle = { KeepsRanges [] };

    fn idle(alloc: Global) -> Regions {
        Regions::new(alloc)
    }
}

/// The ranges of the ranks up to the last that has attached one.
#[derive(Debug, Drop)]
pub(crate) struct RegionTable {
    pub(crate) regions: Vec<Regions>,
}

impl RegionTable {
    /// No rank has attached a range.
    pub(crate) fn new(alloc: Global) -> RegionTable
        ensures { (done_of : ℕ → Done) → ((rank : ℕ) → (done_of rank).ranges ≡ []) →
            KeepsRegions done_of result.regions.items }
    {
        RegionTable {
            regions: Vec::new(alloc),
        }
    }

    /// The rank has attached so many bytes from the base on, at least 1.
    pub(crate) fn attach(
        &mut self,
        alloc: Global,
        rank: u8,
        base: u32,
        bytes: u32,
    ) -> Result<(), NoMemory>
        requires some { 0 < bytes }
        requires end { base + bytes < 2 ^ 32 }
        ensures ok { OnOk result ((before after : ℕ → Done) → IsSameFor rank before after →
            (after rank).ranges ≡ (before rank).ranges ++ record { base = base; bytes = bytes } ∷ [] →
            KeepsRegions before self.old.regions.items → KeepsRegions after self.new.regions.items) }
        ensures err { OnErr result ((done_of : ℕ → Done) →
            KeepsRegions done_of self.old.regions.items → KeepsRegions done_of self.new.regions.items) }
    {
        let at = rank as usize;
        grow_to(&mut self.regions, alloc, at + 1)?;
        let regions = &mut self.regions[at];
        regions.attach(base, bytes)
    }

    /// The rank has detached the ranges that begin at the base.
    pub(crate) fn detach(&mut self, rank: u8, base: u32)
        ensures { (before after : ℕ → Done) → IsSameFor rank before after →
            (after rank).ranges ≡ without base (before rank).ranges →
            KeepsRegions before self.old.regions.items → KeepsRegions after self.new.regions.items }
    {
        let at = rank as usize;
        if at < self.regions.len() {
            let regions = &mut self.regions[at];
            regions.detach(base);
        }
    }

    /// The rank has freed the window, which takes its ranges away.
    pub(crate) fn clear(&mut self, alloc: Global, rank: u8)
        ensures { (before after : ℕ → Done) → IsSameFor rank before after →
            (after rank).ranges ≡ [] →
            KeepsRegions before self.old.regions.items → KeepsRegions after self.new.regions.items }
    {
        let at = rank as usize;
        if at < self.regions.len() {
            let regions = &mut self.regions[at];
            regions.clear(alloc);
        }
    }

    /// Whether the rank has attached each of so many bytes from an address on.
    pub(crate) fn covers(&self, rank: usize, lo: u32, len: u32) -> bool
        requires { lo + len < 2 ^ 32 }
        ensures { (done_of : ℕ → Done) → KeepsRegions done_of self.now.regions.items →
            result ≡ do_they_cover (done_of rank).ranges lo len }
    {
        match self.regions.get(rank) {
            Some(regions) => regions.covers(lo, len),
            None => len == 0,
        }
    }
}
