//! What is common to the accesses of a part.
ghost use Rattle.std.specs.Prelude.{◌≡◌, false};
ghost use Rattle.rank_rules.specs.declared.pending.PendingAccess.{PendingAccess as Access};
ghost use Rattle.delivery_queue.specs.Marked.{IsMarked};
ghost use Rattle.delivery_queue.specs.Soughts.{is_sought};

use crate::number_sets::NumberSet;
use crate::sought::{Sought, is_ordered_kind};
use crate::spans::Span;
use rank_rules::PendingAccess;

/// The names of the windows, and the targets, of some accesses; the targets and the cells of those whose order is kept on
/// a cell; and whether one of them fetches.
#[derive(Clone, Copy, Debug, PartialEq, Eq)]
pub(crate) struct Marks {
    windows: NumberSet,
    targets: NumberSet,
    ordered: NumberSet,
    span: Span,
    fetches: bool,
}

impl Marks {
    /// The marks of no access.
    pub(crate) fn none() -> Marks {
        Marks {
            windows: NumberSet::none(),
            targets: NumberSet::none(),
            ordered: NumberSet::none(),
            span: Span::none(),
            fetches: false,
        }
    }

    /// The marks with those of one access more.
    pub(crate) fn with(self, one: &PendingAccess) -> Marks
        ensures added { IsMarked result one.now }
        ensures kept { (other : Access) → IsMarked self other → IsMarked result other }
    {
        let target = u32::from(one.access.target);
        let ordered = if is_ordered_kind(&one.access.kind) {
            self.ordered.with(target)
        } else {
            self.ordered
        };
        let span = if is_ordered_kind(&one.access.kind) {
            self.span.with(&one.access)
        } else {
            self.span
        };
        Marks {
            windows: self.windows.with(one.access.window),
            targets: self.targets.with(target),
            ordered,
            span,
            fetches: self.fetches || one.fetches,
        }
    }

    /// The marks that are among these or among others.
    pub(crate) fn both(self, other: Marks) -> Marks
        ensures these { (one : Access) → IsMarked self one → IsMarked result one }
        ensures others { (one : Access) → IsMarked other one → IsMarked result one }
    {
        Marks {
            windows: self.windows.both(other.windows),
            targets: self.targets.both(other.targets),
            ordered: self.ordered.both(other.ordered),
            span: self.span.both(other.span),
            fetches: self.fetches || other.fetches,
        }
    }

    /// Whether an access with these marks may be one of those that are sought.
    pub(crate) fn may_hold(&self, sought: &Sought) -> bool
        ensures { result ≡ false → (one : Access) → IsMarked self.now one →
            is_sought sought.now one ≡ false }
    {
        match sought {
            Sought::Nothing => false,
            Sought::OnWindow { win } => self.windows.contains(u32::from(*win)),
            Sought::FetchOnWindow { win } => {
                self.fetches && self.windows.contains(u32::from(*win))
            }
            Sought::AtTarget { win, target } => {
                self.windows.contains(u32::from(*win)) && self.targets.contains(*target)
            }
            Sought::FetchAtTarget { win, target } => {
                self.fetches
                    && self.windows.contains(u32::from(*win))
                    && self.targets.contains(*target)
            }
            Sought::FetchOfCall { .. } => self.fetches,
            Sought::OnCellsOf { access } => {
                self.ordered.contains(u32::from(access.target)) && self.span.may_share(access)
            }
        }
    }
}
