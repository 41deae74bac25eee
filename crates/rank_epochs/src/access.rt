//! The access epoch of a rank on a window (MPI 3.1, sections 11.5.1 to 11.5.3).
ghost use Rattle.std.specs.Prelude.{◌≡◌};
ghost use Rattle.rank_epochs.specs.Views.{access_of};
ghost use Rattle.call_rules.specs.Ranks.{is_member as is_member_of};
ghost use Rattle.rank_rules.specs.Epochs as rules;

use crate::ranks::{Ranks, is_member};

/// The access epoch: none; that of a fence, before and after its first RMA call; that of a start, with its group; that
/// of locks, with their targets in the order of locking; or that of a lock_all.
#[derive(Debug, Drop)]
pub enum AccessEpoch {
    Idle,
    FenceUnused,
    FenceUsed,
    StartTo(Ranks),
    LocksAt(Ranks),
    LockAll,
}

impl AccessEpoch {
    /// No access epoch, or a fence epoch without an RMA call.
    pub fn may_begin(&self) -> bool
        ensures { result ≡ rules.may_begin (access_of self.now) }
    {
        match self {
            AccessEpoch::Idle | AccessEpoch::FenceUnused => true,
            AccessEpoch::FenceUsed
            | AccessEpoch::StartTo(_)
            | AccessEpoch::LocksAt(_)
            | AccessEpoch::LockAll => false,
        }
    }

    pub fn is_fence_unused(&self) -> bool
        ensures { result ≡ rules.is_fence_unused (access_of self.now) }
    {
        match self {
            AccessEpoch::FenceUnused => true,
            AccessEpoch::Idle
            | AccessEpoch::FenceUsed
            | AccessEpoch::StartTo(_)
            | AccessEpoch::LocksAt(_)
            | AccessEpoch::LockAll => false,
        }
    }

    pub fn is_fence_used(&self) -> bool
        ensures { result ≡ rules.is_fence_used (access_of self.now) }
    {
        match self {
            AccessEpoch::FenceUsed => true,
            AccessEpoch::Idle
            | AccessEpoch::FenceUnused
            | AccessEpoch::StartTo(_)
            | AccessEpoch::LocksAt(_)
            | AccessEpoch::LockAll => false,
        }
    }

    pub fn is_start_epoch(&self) -> bool
        ensures { result ≡ rules.is_start_epoch (access_of self.now) }
    {
        match self {
            AccessEpoch::StartTo(_) => true,
            AccessEpoch::Idle
            | AccessEpoch::FenceUnused
            | AccessEpoch::FenceUsed
            | AccessEpoch::LocksAt(_)
            | AccessEpoch::LockAll => false,
        }
    }

    /// A passive target epoch towards some rank.
    pub fn is_passive(&self) -> bool
        ensures { result ≡ rules.is_passive (access_of self.now) }
    {
        match self {
            AccessEpoch::LocksAt(_) | AccessEpoch::LockAll => true,
            AccessEpoch::Idle
            | AccessEpoch::FenceUnused
            | AccessEpoch::FenceUsed
            | AccessEpoch::StartTo(_) => false,
        }
    }

    pub fn is_lock_all(&self) -> bool
        ensures { result ≡ rules.is_lock_all (access_of self.now) }
    {
        match self {
            AccessEpoch::LockAll => true,
            AccessEpoch::Idle
            | AccessEpoch::FenceUnused
            | AccessEpoch::FenceUsed
            | AccessEpoch::StartTo(_)
            | AccessEpoch::LocksAt(_) => false,
        }
    }

    /// The rank is locked by a lock of its own.
    pub fn is_locked(&self, rank: u32) -> bool
        ensures { result ≡ is_member_of rank (rules.targets_locked (access_of self.now)) }
    {
        match self {
            AccessEpoch::LocksAt(targets) => is_member(rank, targets),
            AccessEpoch::Idle
            | AccessEpoch::FenceUnused
            | AccessEpoch::FenceUsed
            | AccessEpoch::StartTo(_)
            | AccessEpoch::LockAll => false,
        }
    }

    /// A passive target epoch towards this rank.
    pub fn is_passive_at(&self, rank: u32) -> bool
        ensures { result ≡ rules.is_passive_at (access_of self.now) rank }
    {
        self.is_lock_all() || self.is_locked(rank)
    }

    /// An RMA call without a request may reach the rank.
    pub fn may_reach(&self, rank: u32) -> bool
        ensures { result ≡ rules.may_reach (access_of self.now) rank }
    {
        match self {
            AccessEpoch::Idle => false,
            AccessEpoch::FenceUnused | AccessEpoch::FenceUsed | AccessEpoch::LockAll => true,
            AccessEpoch::StartTo(group) => is_member(rank, group),
            AccessEpoch::LocksAt(targets) => is_member(rank, targets),
        }
    }

    /// The targets that are locked one by one.
    pub fn into_targets(self) -> Ranks
        ensures { result.items ≡ rules.targets_locked (access_of self) }
    {
        match self {
            AccessEpoch::LocksAt(targets) => targets,
            AccessEpoch::Idle
            | AccessEpoch::FenceUnused
            | AccessEpoch::FenceUsed
            | AccessEpoch::StartTo(_)
            | AccessEpoch::LockAll => Ranks::new(),
        }
    }
}
