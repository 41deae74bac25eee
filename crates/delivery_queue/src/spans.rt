//! Spans of cells, which tell that an access reaches none of many others.
ghost use Rattle.std.specs.Prelude.{◌≡◌, ◌≤◌, false};
ghost use Rattle.rma_types.specs.declared.accesses.Access.{Access as AccessOne};
ghost use Rattle.rank_rules.specs.Pending.{share_cell};
ghost use Rattle.delivery_queue.specs.Spanned.{IsSpanned};

use rma_types::Access;

/// The cells, of 4 bytes, from one on up to another.
#[derive(Clone, Copy, Debug, PartialEq, Eq)]
pub(crate) struct Span {
    begin: u64,
    end: u64,
}

fn least(a: u64, b: u64) -> u64
    ensures first { result ≤ a }
    ensures second { result ≤ b }
{
    if a < b { a } else { b }
}

fn greatest(a: u64, b: u64) -> u64
    ensures first { a ≤ result }
    ensures second { b ≤ result }
{
    if a < b { b } else { a }
}

impl Span {
    /// No cell.
    pub(crate) fn none() -> Span {
        Span {
            begin: u64::MAX,
            end: 0,
        }
    }

    /// The cells of an access.
    fn of(access: &Access) -> Span
        ensures { IsSpanned result access.now }
    {
        Span {
            begin: u64::from(access.lo) / 4,
            end: (u64::from(access.lo) + u64::from(access.len) + 3) / 4,
        }
    }

    /// The span with the cells of one access more.
    pub(crate) fn with(self, access: &Access) -> Span
        ensures added { IsSpanned result access.now }
        ensures kept { (other : AccessOne) → IsSpanned self other → IsSpanned result other }
    {
        self.both(Span::of(access))
    }

    /// The least span that has the cells of both.
    pub(crate) fn both(self, other: Span) -> Span
        ensures these { (one : AccessOne) → IsSpanned self one → IsSpanned result one }
        ensures others { (one : AccessOne) → IsSpanned other one → IsSpanned result one }
    {
        Span {
            begin: least(self.begin, other.begin),
            end: greatest(self.end, other.end),
        }
    }

    /// Whether an access with its cells in the span may share one with the given access.
    pub(crate) fn may_share(&self, access: &Access) -> bool
        ensures { result ≡ false → (one : AccessOne) → IsSpanned self.now one →
            share_cell access.now one ≡ false }
    {
        let cells = Span::of(access);
        cells.begin < self.end && self.begin < cells.end
    }
}
