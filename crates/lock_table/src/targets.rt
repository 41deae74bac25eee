//! The locks that are held at one target.
ghost use Rattle.std.specs.Prelude.{◌≡◌, ℕ, ◌<◌, not, true, false, List, [], ◌∷◌, ◌++◌};
ghost use Rattle.std.specs.List.{list_any};
ghost use Rattle.board_rules.specs.Locks.{Held, excludes};
ghost use Rattle.lock_table.specs.HeldLocks.{locks_at_target, lock, HasSameLocks, is_holder, kept};

use rma_types::Lock;

/// The locks at a target: the ranks that hold a shared one, one bit a rank, or the rank that holds an exclusive one.
#[derive(Clone, Copy, Debug)]
pub(crate) enum Target {
    Shared(u16),
    Exclusive(u8),
}

impl Target {
    /// No held lock excludes one of this kind.
    pub(crate) fn may_grant(&self, kind: Lock) -> bool
        ensures { (window target : ℕ) →
            result ≡ not (list_any (λ (one : Held). excludes kind one.kind) (locks_at_target window target self.now)) }
    {
        match *self {
            Target::Shared(holders) => match kind {
                Lock::Shared => true,
                Lock::Exclusive => holders == 0,
            },
            Target::Exclusive(_) => false,
        }
    }

    /// A lock of some kind is held.
    pub(crate) fn is_held(&self) -> bool
        ensures { (window target : ℕ) →
            result ≡ list_any (λ (_ : Held). true) (locks_at_target window target self.now) }
    {
        match *self {
            Target::Shared(holders) => holders != 0,
            Target::Exclusive(_) => true,
        }
    }

    /// The rank holds a lock.
    pub(crate) fn is_held_by(&self, rank: u8) -> bool
        requires { rank < 16 }
        ensures { (window target : ℕ) → result ≡
            list_any (is_holder rank) (locks_at_target window target self.now) }
    {
        match *self {
            Target::Shared(holders) => holders & (1u16 << rank) != 0,
            Target::Exclusive(holder) => holder == rank,
        }
    }

    /// The locks with one more.
    pub(crate) fn with(self, rank: u8, kind: Lock) -> Target
        requires rank { rank < 16 }
        requires free { (window target : ℕ) →
            list_any (λ (one : Held). excludes kind one.kind) (locks_at_target window target self) ≡ false }
        ensures { (window target : ℕ) →
            HasSameLocks (locks_at_target window target result)
            (locks_at_target window target self ++ lock window target kind rank ∷ []) }
    {
        match (kind, self) {
            (Lock::Exclusive, _) => Target::Exclusive(rank),
            (Lock::Shared, Target::Shared(holders)) => Target::Shared(holders | (1u16 << rank)),
            (Lock::Shared, Target::Exclusive(_)) => unreachable!(),
        }
    }

    /// The locks without those of a rank.
    pub(crate) fn without(self, rank: u8) -> Target
        requires { rank < 16 }
        ensures { (window target : ℕ) →
            HasSameLocks (locks_at_target window target result)
            (kept rank window target (locks_at_target window target self)) }
    {
        match self {
            Target::Shared(holders) => Target::Shared(holders & !(1u16 << rank)),
            Target::Exclusive(holder) => {
                if holder == rank {
                    Target::Shared(0)
                } else {
                    self
                }
            }
        }
    }
}
