//! Sets of ranks.
ghost use Rattle.std.specs.Prelude.{◌≡◌, ◌<◌, ◌==◌, ◌||◌, ◌&&◌, if◌then◌else◌, not, ℕ, false, slice_get, length};
ghost use Rattle.std.specs.Prelude.{Option};
ghost use Rattle.std.specs.List.{find, filter};
ghost use Rattle.call_rules.specs.Pieces.{numbers_from};
ghost use Rattle.rank_runners.specs.RankSets.{has};

/// A set of ranks below 32, a bit for each.
#[derive(Clone, Copy, Debug)]
pub(crate) struct RankSet {
    bits: u32,
}

impl RankSet {
    /// No rank.
    pub(crate) fn none() -> RankSet
        ensures { (rank : ℕ) → has result rank ≡ false }
    {
        RankSet { bits: 0 }
    }

    /// Whether the rank is in the set.
    pub(crate) fn contains(self, rank: u8) -> bool
        requires { rank < 32 }
        ensures { result ≡ has self rank }
    {
        self.bits >> rank & 1 == 1
    }

    /// The set with one rank more.
    pub(crate) fn with(self, rank: u8) -> RankSet
        requires { rank < 32 }
        ensures { (other : ℕ) → has result other ≡ (rank == other || has self other) }
    {
        RankSet {
            bits: self.bits | 1 << rank,
        }
    }

    /// The set with one rank more, where it joins.
    pub(crate) fn with_if(self, rank: u8, joins: bool) -> RankSet
        requires { rank < 32 }
        ensures { (other : ℕ) → has result other ≡
            (if joins then rank == other || has self other else has self other) }
    {
        if joins { self.with(rank) } else { self }
    }

    /// The ranks below 32 that are in neither set.
    pub(crate) fn outside(self, other: RankSet) -> RankSet
        ensures { (rank : ℕ) → rank < 32 → has result rank ≡
            (not (has self rank) && not (has other rank)) }
    {
        RankSet {
            bits: !(self.bits | other.bits),
        }
    }
}
