//! The epochs of a rank on one window.
ghost use Rattle.std.specs.Prelude.{◌≡◌, ◌≤◌, ◌==◌, false, not, if◌then◌else◌, length, IsTrue, Some, filter};
ghost use Rattle.std.specs.List.{list_all};
ghost use Rattle.call_rules.specs.Ranks.{is_rank as is_rank_of, members_of as members};
ghost use Rattle.call_rules.specs.WellFormed.{IsWrittenSynchronisation};
ghost use Rattle.rank_rules.specs.Epochs as rules;
ghost use Rattle.rank_rules.specs.EpochTests as tests;

use crate::access::AccessEpoch;
use crate::classes::has_more_than_nocheck;
use crate::exposure::ExposureEpoch;
use crate::ranks::{Ranks, members_of, natural};
use rma_types::{Asserts, Synchronisation, Target, Transfer};
use std::marker::Model;
use std::mem;

/// The access epoch and the exposure epoch of a rank on one window.
#[derive(Debug, Drop)]
pub struct WindowEpochs {
    access: AccessEpoch,
    exposure: ExposureEpoch,
}

impl Model for WindowEpochs {
    ghost use Rattle.std.specs.Prelude.{IsTrue};
    ghost use Rattle.rank_rules.specs.Epochs.{Epochs};

    ghost Value = { Epochs };

    ghost use Rattle.rank_epochs.specs.Views.{access_of, exposure_of};
    ghost use Rattle.rank_epochs.specs.Distinct.{has_distinct_targets};

    ghost view = { λ w. record { access = access_of w.access; exposure = exposure_of w.exposure } };

    ghost invariant = { λ w. IsTrue (has_distinct_targets (access_of w.access)) };
}

/// What a window has at first, and again where it is made or freed.
impl WindowEpochs {
    pub fn new() -> Self
        ensures { result ≡ rules.no_epochs }
    {
        WindowEpochs {
            access: AccessEpoch::Idle,
            exposure: ExposureEpoch::Unexposed,
        }
    }

    pub fn may_free(&self) -> bool
        ensures { result ≡ rules.may_free self.now }
    {
        self.access.may_begin() && !self.exposure.is_posted()
    }

    fn may_lock(&self, target: &Option<i32>) -> bool
        ensures { result ≡ rules.may_lock self.now.access target.now }
    {
        match target {
            None => self.access.may_begin(),
            Some(target) => {
                self.access.may_begin()
                    || (self.access.is_passive() && !self.access.is_passive_at(natural(*target)))
            }
        }
    }

    fn may_unlock(&self, target: &Option<i32>) -> bool
        ensures { result ≡ rules.may_unlock self.now.access target.now }
    {
        match target {
            None => self.access.is_lock_all(),
            Some(target) => self.access.is_locked(natural(*target)),
        }
    }

    fn may_flush(&self, target: &Option<i32>) -> bool
        ensures { result ≡ rules.may_flush self.now.access target.now }
    {
        match target {
            None => self.access.is_passive(),
            Some(target) => self.access.is_passive_at(natural(*target)),
        }
    }

    pub fn may_synchronise(&self, synchronisation: &Synchronisation<'_>) -> bool
        ensures { result ≡ rules.may_synchronise self.now synchronisation.now }
    {
        match synchronisation {
            Synchronisation::Fences(_) => {
                (self.access.may_begin() || self.access.is_fence_used())
                    && !self.exposure.is_posted()
            }
            Synchronisation::Posts(_, _) => {
                !self.access.is_fence_used() && !self.exposure.is_posted()
            }
            Synchronisation::Starts(_, _) => self.access.may_begin(),
            Synchronisation::Completes => self.access.is_start_epoch(),
            Synchronisation::Waits { .. } => self.exposure.is_posted(),
            Synchronisation::Locks(_, target, _) => self.may_lock(target),
            Synchronisation::Unlocks(target) => self.may_unlock(target),
            Synchronisation::Flushes { target, .. } => self.may_flush(target),
            Synchronisation::Syncs => self.access.is_passive(),
        }
    }

    /// Whether there is an assertion that is not for the call, or that says of a fence epoch with RMA calls that it
    /// had none (MPI 3.1, section 11.5.5).
    pub fn has_wrong_assert(&self, synchronisation: &Synchronisation<'_>) -> bool
        ensures { result ≡ tests.has_wrong_assert self.now synchronisation.now }
    {
        match synchronisation {
            Synchronisation::Fences(asserts) => {
                asserts.nocheck || (asserts.noprecede && self.access.is_fence_used())
            }
            Synchronisation::Posts(_, asserts) => asserts.noprecede || asserts.nosucceed,
            Synchronisation::Starts(_, asserts) | Synchronisation::Locks(_, _, asserts) => {
                has_more_than_nocheck(asserts)
            }
            Synchronisation::Completes
            | Synchronisation::Waits { .. }
            | Synchronisation::Unlocks(_)
            | Synchronisation::Flushes { .. }
            | Synchronisation::Syncs => false,
        }
    }

    /// Whether the transfer may reach its target; a request form is for passive targets alone (MPI 3.1, section 11.3.5).
    pub fn may_move(&self, transfer: &Transfer<'_>) -> bool
        ensures { result ≡ rules.may_move self.now.access transfer.now }
    {
        match transfer.target {
            Target::Own | Target::Null => true,
            Target::Named(rank) => {
                let rank = natural(rank);
                if transfer.request.is_some() {
                    self.access.is_passive_at(rank)
                } else {
                    self.access.may_reach(rank)
                }
            }
        }
    }

    /// Brings the epochs to what they are after the accepted call.
    pub fn synchronise(&mut self, synchronisation: &Synchronisation<'_>)
        requires written { IsWrittenSynchronisation synchronisation.now }
        requires ranks { tests.names_wrong_rank 16 synchronisation.now ≡ false }
        requires allowed { IsTrue (rules.may_synchronise self.old synchronisation.now) }
        ensures { self.new ≡ rules.after_synchronisation self.old synchronisation.now }
    {
        match synchronisation {
            Synchronisation::Fences(asserts) => self.fence(asserts),
            Synchronisation::Posts(group, _) => self.post(group.as_slice()),
            Synchronisation::Starts(group, _) => {
                self.access = AccessEpoch::StartTo(members_of(group.as_slice()));
            }
            Synchronisation::Completes => self.access = AccessEpoch::Idle,
            Synchronisation::Waits { .. } => self.exposure = ExposureEpoch::Unexposed,
            Synchronisation::Locks(_, target, _) => self.lock(target),
            Synchronisation::Unlocks(target) => self.unlock(target),
            Synchronisation::Flushes { .. } | Synchronisation::Syncs => {}
        }
    }

    fn fence(&mut self, asserts: &Asserts)
        ensures { self.new ≡ record self.old
            { access = if asserts.now.nosucceed then rules.Idle else rules.FenceUnused } }
    {
        self.access = if asserts.nosucceed {
            AccessEpoch::Idle
        } else {
            AccessEpoch::FenceUnused
        };
    }

    /// The group is exposed to; a fence epoch without an RMA call ends.
    fn post(&mut self, group: &[i32])
        requires few { length group.now ≤ 16 }
        requires ranks { IsTrue (list_all (is_rank_of 16) group.now) }
        ensures access { self.new.access ≡
            (if rules.is_fence_unused self.old.access then rules.Idle else self.old.access) }
        ensures exposure { self.new.exposure ≡ rules.PostTo (members group.now) }
    {
        if self.access.is_fence_unused() {
            self.access = AccessEpoch::Idle;
        }
        self.exposure = ExposureEpoch::PostTo(members_of(group));
    }

    fn lock(&mut self, target: &Option<i32>)
        requires rank { tests.is_wrong_rank 16 target.now ≡ false }
        requires free { IsTrue (rules.may_lock self.old.access target.now) }
        ensures { self.new ≡ record self.old
            { access = rules.after_lock self.old.access target.now } }
    {
        match target {
            None => self.access = AccessEpoch::LockAll,
            Some(target) => self.lock_one(*target),
        }
    }

    fn lock_one(&mut self, target: i32)
        requires rank { IsTrue (is_rank_of 16 target) }
        requires free { IsTrue (rules.may_lock self.old.access (Some target)) }
        ensures { self.new ≡ record self.old
            { access = rules.after_lock self.old.access (Some target) } }
    {
        let mut targets = mem::replace(&mut self.access, AccessEpoch::Idle).into_targets();
        targets.push(target as u8);
        self.access = AccessEpoch::LocksAt(targets);
    }

    fn unlock(&mut self, target: &Option<i32>)
        ensures { self.new ≡ record self.old
            { access = rules.after_unlock self.old.access target.now } }
    {
        match target {
            None => self.access = AccessEpoch::Idle,
            Some(target) => self.unlock_one(*target),
        }
    }

    /// The target is unlocked; no lock at all is no epoch.
    fn unlock_one(&mut self, target: i32)
        ensures { self.new ≡ record self.old
            { access = rules.after_unlock self.old.access (Some target) } }
    {
        let targets = mem::replace(&mut self.access, AccessEpoch::Idle).into_targets();
        let targets = others(targets, natural(target));
        if !targets.is_empty() {
            self.access = AccessEpoch::LocksAt(targets);
        }
    }

    /// A transfer is issued: one that reaches a named rank, and has no request, uses a fence epoch.
    pub fn transfer(&mut self, transfer: &Transfer<'_>)
        ensures { self.new ≡ record self.old
            { access = rules.after_transfer self.old.access transfer.now } }
    {
        match transfer.target {
            Target::Own | Target::Null => {}
            Target::Named(_) => {
                if transfer.request.is_none() {
                    self.use_fence();
                }
            }
        }
    }

    fn use_fence(&mut self)
        ensures { self.new ≡ record self.old { access = rules.after_use self.old.access } }
    {
        if self.access.is_fence_unused() {
            self.access = AccessEpoch::FenceUsed;
        }
    }
}

/// The ranks but for this one.
fn others(mut ranks: Ranks, rank: u32) -> Ranks
    ensures { result.items ≡ filter (λ one. not (one == rank)) ranks.items }
{
    ranks.retain(|one| u32::from(*one) != rank);
    ranks
}
