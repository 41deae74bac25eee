//! The table of one window.
ghost use Rattle.std.specs.Prelude.{◌≡◌, ◌==◌, ℕ, ◌<◌, not, true, false, List, [], ◌∷◌, ◌++◌};
ghost use Rattle.std.specs.List.{list_any};
ghost use Rattle.board_rules.specs.Locks.{Held, do_clash, is_exclusive};
ghost use Rattle.lock_table.specs.HeldLocks.{HasSameLocks, NoTwoClash, is_held_by, kept, lock};

use crate::targets::Target;
use rma_types::Lock;
use std::marker::Model;

/// The locks that are held on one window, at up to 16 targets by up to 16 ranks, both numbered from 0 (MPI 3.1, section
/// 11.5.3). No two of them exclude each other.
///
/// Contracts see the window's number and the list of the held locks, by target and then by holder.
#[derive(Debug, Drop)]
pub struct LockTable {
    window: u32,
    targets: [Target; 16],
}

impl Model for LockTable {
    ghost use Rattle.lock_table.specs.HeldLocks.{WindowLocks, locks_from};

    ghost Value = { WindowLocks };

    ghost view = { λ table. record { window = table.window; held = locks_from table.window 0 table.targets } };

    ghost use Rattle.std.specs.Prelude.{◌≡◌, length};

    ghost invariant = { λ table. length table.targets ≡ 16 };
}

impl LockTable {
    /// The table of the window of this number, with no lock held.
    pub fn new(window: u32) -> LockTable
        ensures window { result.window ≡ window }
        ensures held { result.held ≡ [] }
    {
        LockTable {
            window,
            targets: [Target::Shared(0); 16],
        }
    }

    /// Whether no held lock excludes a lock of this kind at the target, whichever rank asks. Two locks exclude each
    /// other where at least one is exclusive (MPI 3.1, section 11.5.3). The target is below 16.
    pub fn may_grant(&self, target: u8, kind: Lock) -> bool
        requires { target < 16 }
        ensures { (rank : ℕ) →
            result ≡ not (list_any (do_clash (lock self.now.window target kind rank)) self.now.held) }
    {
        let locks = &self.targets[target as usize];
        locks.may_grant(kind)
    }

    /// Whether no exclusive lock is held at any target, so that a lock_all is granted (MPI 3.1, section 11.5.3).
    pub fn may_grant_all(&self) -> bool
        ensures { result ≡ not (list_any (λ (one : Held). is_exclusive one.kind) self.now.held) }
    {
        for locks in &self.targets {
            if !locks.may_grant(Lock::Shared) {
                return false;
            }
        }
        true
    }

    /// Whether a lock is held at the target, below 16 (MPI 3.1, section 11.5.3).
    pub fn is_held(&self, target: u8) -> bool
        requires { target < 16 }
        ensures { result ≡ list_any (λ (one : Held). one.target == target) self.now.held }
    {
        let locks = &self.targets[target as usize];
        locks.is_held()
    }

    /// Whether the rank holds a lock at the target, both below 16 (MPI 3.1, section 11.5.3).
    pub fn holds(&self, target: u8, rank: u8) -> bool
        requires target { target < 16 }
        requires rank { rank < 16 }
        ensures { result ≡ list_any (is_held_by rank target) self.now.held }
    {
        let locks = &self.targets[target as usize];
        locks.is_held_by(rank)
    }

    /// The rank is granted a lock of this kind at the target, where it holds none and no held lock excludes it (MPI
    /// 3.1, section 11.5.3). The target and the rank are below 16.
    pub fn grant(&mut self, target: u8, rank: u8, kind: Lock)
        requires target { target < 16 }
        requires rank { rank < 16 }
        requires free { list_any (do_clash (lock self.old.window target kind rank)) self.old.held ≡
            false }
        requires none { list_any (is_held_by rank target) self.old.held ≡ false }
        ensures window { self.new.window ≡ self.old.window }
        ensures held { HasSameLocks self.new.held
            (self.old.held ++ lock self.old.window target kind rank ∷ []) }
        ensures exclusion { NoTwoClash self.new.held }
    {
        let at = target as usize;
        let locks = self.targets[at];
        self.targets[at] = locks.with(rank, kind);
    }

    /// The rank gives back its lock at the target, as by an unlock (MPI 3.1, section 11.5.3). The target and the rank
    /// are below 16.
    pub fn release(&mut self, target: u8, rank: u8)
        requires target { target < 16 }
        requires rank { rank < 16 }
        requires one { list_any (is_held_by rank target) self.old.held ≡ true }
        ensures window { self.new.window ≡ self.old.window }
        ensures held { HasSameLocks self.new.held (kept rank self.old.window target self.old.held) }
        ensures exclusion { NoTwoClash self.new.held }
    {
        let at = target as usize;
        let locks = self.targets[at];
        self.targets[at] = locks.without(rank);
    }
}
