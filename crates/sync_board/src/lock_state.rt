//! The locks of one window, with a table from the first lock on (MPI 3.1, section 11.5.3).
ghost use Rattle.std.specs.Prelude.{◌≡◌, ℕ, ◌-◌, ◌<◌, ◌≤◌, not, true, false, List, [], ◌∷◌, ◌++◌, Option, Some, ℤ};
ghost use Rattle.std.specs.List.{list_any};
ghost use Rattle.board_rules.specs.Entries.{Act};
ghost use Rattle.board_rules.specs.Locks.{are_free, do_clash, is_locked as is_locked_at, locks_asked};
ghost use Rattle.board_rules.specs.Questions.{Question};
ghost use Rattle.lock_table.specs.HeldLocks.{HasSameLocks, kept, lock};
ghost use Rattle.sync_board.specs.HeldHere.{KeepsHeld};
ghost use Rattle.sync_board.specs.KeptLocks.{AllOn, KeepsLocks, asked_from, clashes, held_on, left_within, lock_in};
ghost use Rattle.sync_board.specs.KeptLocks.{unlock_in};
ghost use Rattle.sync_board.specs.Reaches.{Reaches};

use entry_gains::Reach;
use lock_table::LockTable;
use rma_types::Lock;

/// The locks of one window.
#[derive(Debug, Drop)]
pub(crate) struct LockState {
    pub(crate) table: Option<LockTable>,
}

/// The table, made where there is none yet.
fn made(table: Option<LockTable>, window: u32) -> LockTable
    ensures { (ranks at : ℕ) (entries : List Act) → at ≡ window →
        KeepsHeld ranks at entries table → KeepsLocks ranks at entries result }
{
    match table {
        Some(table) => table,
        None => LockTable::new(window),
    }
}

/// Whether no held lock excludes one of the kind at a rank of the reach.
fn may_grant(table: &LockTable, kind: Lock, reach: Reach) -> bool
    requires { reach.end ≤ 16 }
    ensures { (rank : ℕ) → result ≡ not (clashes table.now.held
        (asked_from rank table.now.window kind reach.first (reach.end - reach.first))) }
{
    for target in reach.first..reach.end {
        if !table.may_grant(target, kind) {
            return false;
        }
    }
    true
}

/// A lock comes, where no held lock excludes it.
fn grant_at(table: &mut LockTable, rank: u8, kind: Lock, target: u8)
    requires rank { rank < 16 }
    requires target { target < 16 }
    ensures window { table.new.window ≡ table.old.window }
    ensures held { AllOn table.old.window table.old.held →
        list_any (do_clash (lock table.old.window target kind rank)) table.old.held ≡ false →
        HasSameLocks table.new.held (table.old.held ++ lock table.old.window target kind rank ∷ []) }
{
    if table.may_grant(target, kind) && !table.holds(target, rank) {
        table.grant(target, rank, kind);
    }
}

/// A lock comes at each rank of the reach, where no held lock excludes it.
fn grant(table: &mut LockTable, rank: u8, kind: Lock, reach: Reach)
    requires rank { rank < 16 }
    requires end { reach.end ≤ 16 }
    ensures window { table.new.window ≡ table.old.window }
    ensures held { reach.first ≤ reach.end → AllOn table.old.window table.old.held →
        clashes table.old.held (asked_from rank table.old.window kind reach.first (reach.end - reach.first)) ≡
        false → HasSameLocks table.new.held (table.old.held ++
        asked_from rank table.old.window kind reach.first (reach.end - reach.first)) }
{
    for target in reach.first..reach.end {
        grant_at(table, rank, kind, target);
    }
}

/// The lock of a rank at a target goes, where it holds one.
fn release_at(table: &mut LockTable, rank: u8, target: u8)
    requires rank { rank < 16 }
    requires target { target < 16 }
    ensures window { table.new.window ≡ table.old.window }
    ensures held { HasSameLocks table.new.held (kept rank table.old.window target table.old.held) }
{
    if table.holds(target, rank) {
        table.release(target, rank);
    }
}

/// The locks of a rank at the ranks of the reach go.
fn release(table: &mut LockTable, rank: u8, reach: Reach)
    requires rank { rank < 16 }
    requires end { reach.end ≤ 16 }
    ensures window { table.new.window ≡ table.old.window }
    ensures held { reach.first ≤ reach.end → HasSameLocks table.new.held
        (left_within rank table.old.window reach.first reach.end table.old.held) }
{
    for target in reach.first..reach.end {
        release_at(table, rank, target);
    }
}

impl LockState {
    /// No lock is held.
    pub(crate) fn new() -> LockState
        ensures { (ranks window : ℕ) (entries : List Act) → held_on ranks window entries ≡ [] →
            KeepsHeld ranks window entries result.table }
    {
        LockState { table: None }
    }

    /// Whether a lock of this kind is free at each rank of the reach.
    pub(crate) fn may_lock(&self, kind: Lock, reach: Reach) -> bool
        requires { reach.end ≤ 16 }
        ensures { (q : Question) (target : Option ℤ) → Reaches q.ranks target reach →
            KeepsHeld q.ranks q.window q.entries self.now.table →
            result ≡ are_free q (locks_asked q kind target) }
    {
        match &self.table {
            Some(table) => may_grant(table, kind, reach),
            None => true,
        }
    }

    /// Whether a lock is held at the rank.
    pub(crate) fn is_locked(&self, rank: u8) -> bool
        requires { rank < 16 }
        ensures { (q : Question) → KeepsHeld q.ranks q.window q.entries self.now.table →
            result ≡ is_locked_at q rank }
    {
        match &self.table {
            Some(table) => table.is_held(rank),
            None => false,
        }
    }

    /// The rank has taken a lock, that was free, at each rank of the reach.
    pub(crate) fn lock(&mut self, window: u32, rank: u8, kind: Lock, reach: Reach)
        requires rank { rank < 16 }
        requires end { reach.end ≤ 16 }
        ensures { (q : Question) (act : Act) (target : Option ℤ) → Reaches q.ranks target reach →
            q.window ≡ window → act.window ≡ q.window → act.row.rank ≡ rank → q.rank ≡ rank →
            lock_in act.row.call ≡ Some (kind, target) → are_free q (locks_asked q kind target) ≡ true →
            KeepsHeld q.ranks q.window q.entries self.old.table →
            KeepsHeld q.ranks q.window (q.entries ++ act ∷ []) self.new.table }
    {
        let mut table = made(self.table.take(), window);
        grant(&mut table, rank, kind, reach);
        self.table = Some(table);
    }

    /// The rank has given back its locks at the ranks of the reach, where it held any.
    pub(crate) fn unlock(&mut self, window: u32, rank: u8, reach: Reach)
        requires rank { rank < 16 }
        requires end { reach.end ≤ 16 }
        ensures { (ranks at : ℕ) (entries : List Act) (act : Act) (target : Option ℤ) →
            Reaches ranks target reach →
            at ≡ window → act.window ≡ at → act.row.rank ≡ rank → unlock_in act.row.call ≡ Some target →
            KeepsHeld ranks at entries self.old.table →
            KeepsHeld ranks at (entries ++ act ∷ []) self.new.table }
    {
        let mut table = made(self.table.take(), window);
        release(&mut table, rank, reach);
        self.table = Some(table);
    }
}
