//! What ranks have done, in tables by window and rank.
ghost use Rattle.std.specs.HashMap.{spare};
ghost use Rattle.std.specs.Prelude.{◌≡◌, ◌≤◌, ◌<◌, ◌+◌, ◌&&◌, ℕ, cond, nat_le, nat_lt, slice_index_or, Some, None};
ghost use Rattle.entry_gains.specs.Tables.{begun_at, side_at, ordinals_at, held_at, round_eq, side_eq, start_eq};
ghost use Rattle.entry_gains.specs.Tables.{lock_eq, stronger, counted, is_reached_below, is_within, lock_key, ArePut};
ghost use Rattle.entry_gains.specs.Tables.{IsRaised};
ghost use Rattle.entry_gains.specs.declared.tables.RoundKey.{RoundKey};
ghost use Rattle.entry_gains.specs.declared.tables.SideKey.{SideKey};
ghost use Rattle.entry_gains.specs.declared.tables.StartKey.{StartKey};
ghost use Rattle.entry_gains.specs.declared.tables.LockKey.{LockKey};

use crate::deeds::Reach;
use crate::slots::Meeting;
use rma_types::Lock;
use std::alloc::Global;
use std::collections::HashMap;

/// A rank at the collective calls of a kind on a window.
#[derive(Clone, Copy, Debug, PartialEq, Eq, Hash)]
pub(crate) struct RoundKey {
    pub(crate) window: u32,
    pub(crate) meeting: Meeting,
    pub(crate) rank: u8,
}

/// A rank on a window.
#[derive(Clone, Copy, Debug, PartialEq, Eq, Hash)]
pub(crate) struct SideKey {
    pub(crate) window: u32,
    pub(crate) rank: u8,
}

/// A start of a rank on a window, by its number from 0.
#[derive(Clone, Copy, Debug, PartialEq, Eq, Hash)]
pub(crate) struct StartKey {
    pub(crate) window: u32,
    pub(crate) rank: u8,
    pub(crate) number: u32,
}

/// The locks of a rank on a window at a target.
#[derive(Clone, Copy, Debug, PartialEq, Eq, Hash)]
pub(crate) struct LockKey {
    pub(crate) window: u32,
    pub(crate) rank: u8,
    pub(crate) target: u8,
}

/// What a rank has done on a window (MPI 3.1, section 11.5.2): for each rank, how many of its posts and of its starts
/// name that rank, and whether its last post does; and how many starts and completes it made.
#[derive(Clone, Copy, Debug)]
pub(crate) struct Side {
    pub(crate) posted_to: [u32; 16],
    pub(crate) started_to: [u32; 16],
    pub(crate) last_post: [bool; 16],
    pub(crate) starts: u32,
    pub(crate) completes: u32,
}

/// How often a rank has arrived.
pub(crate) fn begun(rounds: &HashMap<RoundKey, u32>, key: RoundKey) -> u32
    ensures { result ≡ begun_at rounds.now key }
{
    match rounds.get(&key) {
        None => 0,
        Some(count) => *count,
    }
}

/// One arrival more.
pub(crate) fn arrive(rounds: &mut HashMap<RoundKey, u32>, key: RoundKey)
    requires room { 1 ≤ spare rounds.old }
    ensures { (other : RoundKey) → begun_at rounds.new other ≡ cond (round_eq key other)
        (counted (begun_at rounds.old key)) (begun_at rounds.old other) }
{
    match rounds.get_mut(&key) {
        Some(count) => *count = count.saturating_add(1),
        None => {
            let _ = rounds.insert(key, 1);
        }
    }
}

/// What a rank has done on a window.
pub(crate) fn side_of(sides: &HashMap<SideKey, Side>, key: SideKey) -> Side
    ensures { result ≡ side_at sides.now key }
{
    match sides.get(&key) {
        None => Side {
            posted_to: [0; 16],
            started_to: [0; 16],
            last_post: [false; 16],
            starts: 0,
            completes: 0,
        },
        Some(side) => *side,
    }
}

/// Another side for a rank on a window.
pub(crate) fn put_side(sides: &mut HashMap<SideKey, Side>, key: SideKey, side: Side)
    requires room { 1 ≤ spare sides.old }
    ensures { (other : SideKey) →
        side_at sides.new other ≡ cond (side_eq key other) side (side_at sides.old other) }
{
    let _ = sides.insert(key, side);
}

/// For each rank the number of a start among those that name it, from 1, where the start does, and else 0.
pub(crate) fn ordinals(started: &HashMap<StartKey, [u32; 16]>, key: StartKey) -> [u32; 16]
    ensures { result ≡ ordinals_at started.now key }
{
    match started.get(&key) {
        None => [0; 16],
        Some(ordinals) => *ordinals,
    }
}

/// One start more.
pub(crate) fn put_ordinals(
    started: &mut HashMap<StartKey, [u32; 16]>,
    key: StartKey,
    ordinals: [u32; 16],
)
    requires room { 1 ≤ spare started.old }
    ensures { (other : StartKey) →
        ordinals_at started.new other ≡ cond (start_eq key other) ordinals (ordinals_at started.old other) }
{
    let _ = started.insert(key, ordinals);
}

/// The kind of the lock that a rank holds on a window at a target, the strongest where it holds several.
pub(crate) fn kind_held(held: &HashMap<LockKey, Lock>, key: LockKey) -> Option<Lock>
    ensures { result ≡ held_at held.now key }
{
    held.get(&key).copied()
}

/// One lock more.
fn hold(held: &mut HashMap<LockKey, Lock>, key: LockKey, kind: Lock)
    requires room { 1 ≤ spare held.old }
    ensures kinds { (other : LockKey) → held_at held.new other ≡ cond (lock_eq key other)
        (Some (stronger (held_at held.old key) kind)) (held_at held.old other) }
    ensures room { spare held.old ≤ spare held.new + 1 }
{
    let strongest = match kind_held(held, key) {
        Some(Lock::Exclusive) => Lock::Exclusive,
        Some(Lock::Shared) => kind,
        None => kind,
    };
    let _ = held.insert(key, strongest);
}

/// The locks of a rank at a target are given back.
fn release(held: &mut HashMap<LockKey, Lock>, key: LockKey)
    ensures kinds { (other : LockKey) →
        held_at held.new other ≡ cond (lock_eq key other) None (held_at held.old other) }
    ensures room { spare held.old ≤ spare held.new }
{
    let _ = held.remove(&key);
}

/// One more, where it is named.
fn raised_if(count: u32, named: bool) -> u32
    ensures { result ≡ cond named (counted count) count }
{
    if named {
        count.saturating_add(1)
    } else {
        count
    }
}

/// The counts, each raised by one where the rank is named; a count at the end of its type stays.
fn raised(counts: &[u32; 16], named: &[bool; 16]) -> [u32; 16]
    ensures { IsRaised counts.now named.now result }
{
    let mut raised = [0; 16];
    for rank in 0..16 {
        raised[rank] = raised_if(counts[rank], named[rank]);
    }
    raised
}

impl Side {
    /// One post more.
    pub(crate) fn with_post(self, named: &[bool; 16]) -> Side
        ensures posted { IsRaised self.posted_to named.now result.posted_to }
        ensures last { result.last_post ≡ named.now }
        ensures started { result.started_to ≡ self.started_to }
        ensures starts { result.starts ≡ self.starts }
        ensures completes { result.completes ≡ self.completes }
    {
        let posted_to = raised(&self.posted_to, named);
        let started_to = self.started_to;
        let last_post = *named;
        Side {
            posted_to,
            started_to,
            last_post,
            starts: self.starts,
            completes: self.completes,
        }
    }

    /// One start more.
    pub(crate) fn with_start(self, named: &[bool; 16]) -> Side
        ensures started { IsRaised self.started_to named.now result.started_to }
        ensures starts { result.starts ≡ counted self.starts }
        ensures posted { result.posted_to ≡ self.posted_to }
        ensures last { result.last_post ≡ self.last_post }
        ensures completes { result.completes ≡ self.completes }
    {
        let posted_to = self.posted_to;
        let started_to = raised(&self.started_to, named);
        let last_post = self.last_post;
        Side {
            posted_to,
            started_to,
            last_post,
            starts: self.starts.saturating_add(1),
            completes: self.completes,
        }
    }

    /// One complete more.
    pub(crate) fn with_complete(self) -> Side
        ensures completes { result.completes ≡ counted self.completes }
        ensures posted { result.posted_to ≡ self.posted_to }
        ensures last { result.last_post ≡ self.last_post }
        ensures started { result.started_to ≡ self.started_to }
        ensures starts { result.starts ≡ self.starts }
    {
        let posted_to = self.posted_to;
        let started_to = self.started_to;
        let last_post = self.last_post;
        Side {
            posted_to,
            started_to,
            last_post,
            starts: self.starts,
            completes: self.completes.saturating_add(1),
        }
    }
}

/// One more, where it is named, else 0.
fn ordinal_if(count: u32, named: bool) -> u32
    ensures { result ≡ cond named (counted count) 0 }
{
    if named { count.saturating_add(1) } else { 0 }
}

/// The numbers, from 1, of a start among those that name each rank, by how many did before; 0 where it does not.
pub(crate) fn ordinals_after(counts: &[u32; 16], named: &[bool; 16]) -> [u32; 16]
    ensures { ArePut counts.now named.now result }
{
    let mut ordinals = [0; 16];
    for rank in 0..16 {
        ordinals[rank] = ordinal_if(counts[rank], named[rank]);
    }
    ordinals
}

/// A lock of a kind at a target, where it lies from `first` up to `end`.
fn hold_at(held: &mut HashMap<LockKey, Lock>, side: SideKey, kind: Lock, reach: Reach, target: u8)
    requires room { 1 ≤ spare held.old }
    ensures kinds { (other : LockKey) → held_at held.new other
        ≡ cond (lock_eq (lock_key side target) other && is_within reach target)
        (Some (stronger (held_at held.old other) kind)) (held_at held.old other) }
    ensures room { spare held.old ≤ spare held.new + 1 }
{
    if reach.first <= target && target < reach.end {
        let key = LockKey {
            window: side.window,
            rank: side.rank,
            target,
        };
        hold(held, key, kind);
    }
}

/// Locks of a kind of a rank on a window, at those of the 16 targets that are reached.
pub(crate) fn hold_all(held: &mut HashMap<LockKey, Lock>, side: SideKey, kind: Lock, reach: Reach)
    requires { 16 ≤ spare held.old }
    ensures { (other : LockKey) → held_at held.new other ≡
        cond (is_reached_below 16 side reach other)
        (Some (stronger (held_at held.old other) kind)) (held_at held.old other) }
{
    for target in 0..16u8 {
        hold_at(held, side, kind, reach, target);
    }
}

/// The locks at a target are given back, where it lies from `first` up to `end`.
fn release_at(held: &mut HashMap<LockKey, Lock>, side: SideKey, reach: Reach, target: u8)
    ensures { (other : LockKey) → held_at held.new other
        ≡ cond (lock_eq (lock_key side target) other && is_within reach target) None (held_at held.old other) }
{
    if reach.first <= target && target < reach.end {
        let key = LockKey {
            window: side.window,
            rank: side.rank,
            target,
        };
        release(held, key);
    }
}

/// The locks of a rank on a window, at those of the 16 targets that are reached, are given back.
pub(crate) fn release_all(held: &mut HashMap<LockKey, Lock>, side: SideKey, reach: Reach)
    ensures { (other : LockKey) →
        held_at held.new other ≡ cond (is_reached_below 16 side reach other) None (held_at held.old other) }
{
    for target in 0..16u8 {
        release_at(held, side, reach, target);
    }
}

/// The kind at a target, where it is reached.
fn kind_at(held: &HashMap<LockKey, Lock>, side: SideKey, reach: Reach, target: u8) -> Option<Lock>
    ensures { result ≡ cond (is_within reach target)
        (held_at held.now (lock_key side target)) None }
{
    if reach.first <= target && target < reach.end {
        let key = LockKey {
            window: side.window,
            rank: side.rank,
            target,
        };
        kind_held(held, key)
    } else {
        None
    }
}

/// The kinds of the locks of a rank on a window at the targets that are reached.
pub(crate) fn kinds_held(
    held: &HashMap<LockKey, Lock>,
    side: SideKey,
    reach: Reach,
) -> [Option<Lock>; 16]
    ensures { (at : ℕ) → at < 16 → slice_index_or result at None
        ≡ cond (is_within reach at) (held_at held.now (lock_key side at)) None }
{
    let mut kinds = [None; 16];
    for target in 0..16u8 {
        kinds[target as usize] = kind_at(held, side, reach, target);
    }
    kinds
}
