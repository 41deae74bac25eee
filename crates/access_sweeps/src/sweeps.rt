//! Sweeps of two lists of accesses (after MPI 3.1, section 11.7).
ghost use Rattle.std.specs.Prelude.{◌≡◌, ◌≤◌, ◌<◌, ◌⊎◌, length, slice_index, true};
ghost use Rattle.rma_types.specs.declared.findings.Model.{Model as ModelValue};
ghost use Rattle.vector_clocks.specs.Marks.{before_in};
ghost use Rattle.access_sweeps.specs.Places.{AreLeastOf, ArePartners, IsLeastOf, NoneRises};
ghost use Rattle.access_sweeps.specs.Sweeps.{DoAllStand, HaveLabel, IsFrontFrom, IsSwept, IsWithin, accesses_of};
ghost use Rattle.access_sweeps.specs.Sweeps.{improved, improved_at};

use crate::fronts::{Front, Passed};
use crate::kinds::{Label, do_stand, label_of};
use crate::order::is_ordered;
use first_points::JudgedPoints;
use vector_clocks::Clocks;

/// Two lists of accesses by their places, and whether the operations of accumulates count between them.
#[derive(Clone, Copy, Debug)]
pub struct Sweep<'a> {
    pub clocks: &'a Clocks,
    pub accesses: &'a [JudgedPoints],
    pub first: &'a [usize],
    pub second: &'a [usize],
    pub by_operation: bool,
}

impl Sweep<'_> {
    /// The access at place `a` is taken as a partner of that at `b`, where it is smaller than the one so far, and `b` is
    /// not ordered before it.
    fn improve(&self, best: &mut [usize], a: usize, b: usize)
        requires partner { a < length self.now.accesses.now }
        requires there { b < length self.now.accesses.now }
        requires best { length best.old ≡ length self.now.accesses.now }
        ensures { best.new ≡ improved (before_in self.now.clocks.now)
            (accesses_of self.now) best.old a b }
    {
        if a < b && a < best[b] {
            if !is_ordered(self.clocks, &self.accesses[b], &self.accesses[a]) {
                best[b] = a;
            }
        }
    }

    /// The access at a place of the first list is taken as a partner of that at `b`, where there is one, it is smaller than
    /// the partner so far, and `b` is not ordered before it.
    fn improve_at(&self, best: &mut [usize], at: usize, b: usize)
        requires first_list { IsWithin (length self.now.accesses.now) self.now.first.now }
        requires there { b < length self.now.accesses.now }
        requires best { length best.old ≡ length self.now.accesses.now }
        ensures { best.new ≡ improved_at self.now best.old at b }
    {
        if at < self.first.len() {
            self.improve(best, self.first[at], b);
        }
    }

    /// Whether no access of the first list is smaller than the partner so far.
    fn is_settled(&self, best: &[usize], b: usize) -> bool
        requires { b < length best.now }
        ensures { result ≡ true →
            (length self.now.first.now ≡ 0) ⊎ (slice_index best.now b ≤ slice_index self.now.first.now 0) }
    {
        match self.first.first() {
            Some(least) => best[b] <= *least,
            None => true,
        }
    }

    /// Whether the accesses at the places all have this label.
    fn have_label(&self, places: &[usize], label: Option<Label>) -> bool
        requires { IsWithin (length self.now.accesses.now) places.now }
        ensures { result ≡ true → HaveLabel self.now places.now label }
    {
        for at in 0..places.len() {
            let access = &self.accesses[places[at]].access;
            if !do_stand(label_of(access, self.by_operation), label) {
                return false;
            }
        }
        true
    }

    /// Whether the accesses of both lists all have the label of the first one: each may stand beside each.
    fn do_all_stand(&self) -> bool
        requires first_list { IsWithin (length self.now.accesses.now) self.now.first.now }
        requires second_list { IsWithin (length self.now.accesses.now) self.now.second.now }
        ensures { result ≡ true → DoAllStand self.now }
    {
        match self.first.first() {
            Some(place) => {
                let label = label_of(&self.accesses[*place].access, self.by_operation);
                self.have_label(self.first, label) && self.have_label(self.second, label)
            }
            None => true,
        }
    }

    /// One access of the second list.
    fn pass(&self, front: Front, at: usize, best: &mut [usize]) -> Front
        requires first_list { IsWithin (length self.now.accesses.now) self.now.first.now }
        requires second_list { IsWithin (length self.now.accesses.now) self.now.second.now }
        requires best { length best.old ≡ length self.now.accesses.now }
        requires first { front.first ≤ front.other }
        requires other { front.other ≤ length self.now.first.now }
        requires there { at < length self.now.second.now }
        ensures long { length best.new ≡ length best.old }
        ensures first { result.first ≤ result.other }
        ensures other { result.other ≤ length self.now.first.now }
        ensures falls { NoneRises best.old best.new }
        ensures front { (model : ModelValue) → IsSwept model self.now →
            IsFrontFrom self.now front at →
            IsFrontFrom self.now result at }
        ensures partners { (model : ModelValue) → IsSwept model self.now →
            IsFrontFrom self.now front at →
            ArePartners model (before_in self.now.clocks.now) (accesses_of self.now) best.old →
            ArePartners model (before_in self.now.clocks.now) (accesses_of self.now) best.new }
        ensures least { (model : ModelValue) → IsSwept model self.now →
            IsFrontFrom self.now front at →
            IsLeastOf model (before_in self.now.clocks.now) (accesses_of self.now) self.now.first.now
            (slice_index self.now.second.now at) best.new }
    {
        let b = self.second[at];
        if self.is_settled(best, b) {
            return front;
        }
        let passed = Passed {
            clocks: self.clocks,
            accesses: self.accesses,
            places: self.first,
            by_operation: self.by_operation,
        };
        let choice = passed.choice(front, &self.accesses[b]);
        self.improve_at(best, choice.at, b);
        choice.front
    }
}

/// For each access of the second list, the least partner of the first is taken where it is smaller than the one so far.
/// Each list is gone through once. Where all may stand beside each other, no order is asked.
pub fn sweep_lists(lists: &Sweep<'_>, best: &mut [usize])
    requires first_list { IsWithin (length lists.now.accesses.now) lists.now.first.now }
    requires second_list { IsWithin (length lists.now.accesses.now) lists.now.second.now }
    requires best { length best.old ≡ length lists.now.accesses.now }
    ensures long { length best.new ≡ length best.old }
    ensures falls { NoneRises best.old best.new }
    ensures partners { (model : ModelValue) → IsSwept model lists.now →
        ArePartners model (before_in lists.now.clocks.now) (accesses_of lists.now) best.old →
        ArePartners model (before_in lists.now.clocks.now) (accesses_of lists.now) best.new }
    ensures least { (model : ModelValue) → IsSwept model lists.now →
        AreLeastOf model (before_in lists.now.clocks.now) (accesses_of lists.now) lists.now.first.now
        lists.now.second.now best.new }
{
    if lists.do_all_stand() {
        return;
    }
    let mut front = Front { first: 0, other: 0 };
    for at in 0..lists.second.len() {
        front = lists.pass(front, at, best);
    }
}
