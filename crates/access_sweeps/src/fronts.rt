//! How far a list is passed by an access of another: it is gone through once for all of them.
ghost use Rattle.std.specs.Prelude.{◌≡◌, ◌≤◌, ◌<◌, ◌⊎◌, ◌||◌, ℕ, true, false, length, slice_index};
ghost use Rattle.order_rules.specs.Ordered.{is_ordered as is_ordered_by};
ghost use Rattle.vector_clocks.specs.Marks.{before_in};
ghost use Rattle.first_points.specs.Alike.{judged_by};
ghost use Rattle.access_sweeps.specs.Labels.{do_stand as do_labels_stand, label_of as label_by};
ghost use Rattle.access_sweeps.specs.Sweeps.{IsChoice, IsWithin, do_both_stand, first_at};

use crate::kinds::{Label, do_stand, label_of};
use crate::order::is_ordered;
use first_points::JudgedPoints;
use vector_clocks::Clocks;

/// Accesses by their places, which accesses of another list pass: whether their operations count.
#[derive(Clone, Copy, Debug)]
pub(crate) struct Passed<'a> {
    pub(crate) clocks: &'a Clocks,
    pub(crate) accesses: &'a [JudgedPoints],
    pub(crate) places: &'a [usize],
    pub(crate) by_operation: bool,
}

/// How far the accesses are passed: those before `first` are ordered before the access at hand, and those from there to
/// before `other` are, or have the label of that at `first`.
#[derive(Clone, Copy, Debug)]
pub(crate) struct Front {
    pub(crate) first: usize,
    pub(crate) other: usize,
}

/// The front at an access, and the first of the list that is not ordered before it and may not stand beside it.
#[derive(Clone, Copy, Debug)]
pub(crate) struct Choice {
    pub(crate) front: Front,
    pub(crate) at: usize,
}

impl Passed<'_> {
    pub(crate) fn access(&self, at: usize) -> &JudgedPoints
        requires within { IsWithin (length self.now.accesses.now) self.now.places.now }
        requires there { at < length self.now.places.now }
        ensures { judged_by result.now ≡ first_at self.now at }
    {
        &self.accesses[self.places[at]]
    }

    fn label(&self, access: &JudgedPoints) -> Option<Label>
        ensures { result ≡ label_by self.now.by_operation (judged_by access.now).access }
    {
        label_of(&access.access, self.by_operation)
    }

    /// The first from a place on that is not ordered before the access.
    fn first_unordered(&self, from: usize, b: &JudgedPoints) -> usize
        requires within { IsWithin (length self.now.accesses.now) self.now.places.now }
        requires there { from ≤ length self.now.places.now }
        ensures low { from ≤ result }
        ensures bound { result ≤ length self.now.places.now }
        ensures passed { (k : ℕ) → from ≤ k → k < result →
            is_ordered_by (before_in self.now.clocks.now) (first_at self.now k) (judged_by b.now) ≡ true }
        ensures stops { result < length self.now.places.now →
            is_ordered_by (before_in self.now.clocks.now) (first_at self.now result) (judged_by b.now) ≡ false }
    {
        for at in from..self.places.len() {
            if !is_ordered(self.clocks, self.access(at), b) {
                return at;
            }
        }
        self.places.len()
    }

    /// Whether the access at the place has this label, or is ordered before the access.
    fn is_skipped(&self, at: usize, b: &JudgedPoints, label: Option<Label>) -> bool
        requires within { IsWithin (length self.now.accesses.now) self.now.places.now }
        requires there { at < length self.now.places.now }
        ensures { result ≡ (do_labels_stand (label_by self.now.by_operation
            (first_at self.now at).access) label
            || is_ordered_by (before_in self.now.clocks.now) (first_at self.now at) (judged_by b.now)) }
    {
        let a = self.access(at);
        do_stand(self.label(a), label) || is_ordered(self.clocks, a, b)
    }

    /// The first from a place on that is not ordered before the access, and has not this label.
    fn first_unlike(&self, from: usize, b: &JudgedPoints, label: Option<Label>) -> usize
        requires within { IsWithin (length self.now.accesses.now) self.now.places.now }
        requires there { from ≤ length self.now.places.now }
        ensures low { from ≤ result }
        ensures bound { result ≤ length self.now.places.now }
        ensures passed { (k : ℕ) → from ≤ k → k < result →
            (is_ordered_by (before_in self.now.clocks.now) (first_at self.now k) (judged_by b.now) ≡ true)
            ⊎ (do_labels_stand (label_by self.now.by_operation (first_at self.now k).access) label ≡ true) }
        ensures unordered { result < length self.now.places.now →
            is_ordered_by (before_in self.now.clocks.now) (first_at self.now result) (judged_by b.now) ≡ false }
        ensures unlike { result < length self.now.places.now →
            do_labels_stand (label_by self.now.by_operation (first_at self.now result).access) label ≡ false }
    {
        for at in from..self.places.len() {
            if !self.is_skipped(at, b, label) {
                return at;
            }
        }
        self.places.len()
    }

    /// Whether there is an access at the place that may stand beside the access.
    fn may_stand(&self, at: usize, b: &JudgedPoints) -> bool
        requires { IsWithin (length self.now.accesses.now) self.now.places.now }
        ensures there { result ≡ true → at < length self.now.places.now }
        ensures stands { at < length self.now.places.now →
            result ≡ do_both_stand self.now (first_at self.now at) (judged_by b.now) }
    {
        if at < self.places.len() {
            do_stand(self.label(self.access(at)), self.label(b))
        } else {
            false
        }
    }

    /// The front at an access, and the first of the list that is not ordered before it and may not stand beside it.
    pub(crate) fn choice(&self, front: Front, b: &JudgedPoints) -> Choice
        requires within { IsWithin (length self.now.accesses.now) self.now.places.now }
        requires first { front.first ≤ front.other }
        requires other { front.other ≤ length self.now.places.now }
        ensures first { result.front.first ≤ result.front.other }
        ensures other { result.front.other ≤ length self.now.places.now }
        ensures there { result.at ≤ length self.now.places.now }
        ensures choice { IsChoice self.now front result (judged_by b.now) }
    {
        let first = self.first_unordered(front.first, b);
        let other = front.other.max(first);
        if self.may_stand(first, b) {
            let other = self.first_unlike(other, b, self.label(self.access(first)));
            return Choice {
                front: Front { first, other },
                at: other,
            };
        }
        Choice {
            front: Front { first, other },
            at: first,
        }
    }
}
