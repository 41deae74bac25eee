//! What the ranks have done on one window: posts, starts, completes and waits (MPI 3.1, section 11.5.2).
ghost use Rattle.std.specs.Prelude.{◌≡◌, ℕ, ◌<◌, nat_lt, List, [], length, reverse, take, slice_index_or, OnOk, OnErr};
ghost use Rattle.board_rules.specs.Posts.{naming};
ghost use Rattle.sync_board.specs.Sides.{Done, IsGroup, with_post, with_start, with_complete, with_wait};
ghost use Rattle.sync_board.specs.Tables.{HasNoSide, IsSameFor, KeepsSides};

use crate::grown::grow_to;
use crate::sides::Side;
use rma_types::NoMemory;
use std::alloc::Global;

/// The sides of the ranks up to the last that has done something.
#[derive(Debug, Drop)]
pub(crate) struct SideTable {
    pub(crate) sides: Vec<Side>,
}

impl SideTable {
    /// No rank has done anything.
    pub(crate) fn new(alloc: Global) -> SideTable
        ensures { (done_of : ℕ → Done) → ((rank : ℕ) → HasNoSide (done_of rank)) →
            KeepsSides done_of result.sides.items }
    {
        SideTable {
            sides: Vec::new(alloc),
        }
    }

    /// How many of the rank's posts name the member.
    pub(crate) fn posted(&self, rank: usize, member: usize) -> u32
        requires { member < 16 }
        ensures { (done_of : ℕ → Done) → KeepsSides done_of self.now.sides.items →
            result ≡ naming member (done_of rank).posts }
    {
        match self.sides.get(rank) {
            Some(side) => side.posted_to[member],
            None => 0,
        }
    }

    /// How many of the rank's starts name the member.
    pub(crate) fn started(&self, rank: usize, member: usize) -> u32
        requires { member < 16 }
        ensures { (done_of : ℕ → Done) → KeepsSides done_of self.now.sides.items →
            result ≡ naming member (done_of rank).starts }
    {
        match self.sides.get(rank) {
            Some(side) => side.started_to[member],
            None => 0,
        }
    }

    /// How many of the rank's completed starts name the member.
    pub(crate) fn completed(&self, rank: usize, member: usize) -> u32
        requires { member < 16 }
        ensures { (done_of : ℕ → Done) → KeepsSides done_of self.now.sides.items →
            result ≡ naming member (take (done_of rank).completes (done_of rank).starts) }
    {
        match self.sides.get(rank) {
            Some(side) => side.completed_to[member],
            None => 0,
        }
    }

    /// The group of the rank's last post.
    pub(crate) fn last_post(&self, rank: usize) -> [bool; 16]
        ensures { (done_of : ℕ → Done) → KeepsSides done_of self.now.sides.items →
            IsGroup result (slice_index_or (reverse (done_of rank).posts) 0 []) }
    {
        match self.sides.get(rank) {
            Some(side) => side.last_post,
            None => [false; 16],
        }
    }

    /// The rank is posted, from its post to its wait or true testwin.
    pub(crate) fn is_posted(&self, rank: usize) -> bool
        ensures { (done_of : ℕ → Done) → KeepsSides done_of self.now.sides.items →
            result ≡ nat_lt (done_of rank).waits (length (done_of rank).posts) }
    {
        match self.sides.get(rank) {
            Some(side) => side.is_posted(),
            None => false,
        }
    }

    /// One post more of the rank, to a group.
    pub(crate) fn post(
        &mut self,
        alloc: Global,
        rank: u8,
        group: &[bool; 16],
    ) -> Result<(), NoMemory>
        ensures ok { OnOk result ((before after : ℕ → Done) (members : List ℕ) →
            IsGroup group.now members →
            IsSameFor rank before after → after rank ≡ with_post (before rank) members →
            KeepsSides before self.old.sides.items → KeepsSides after self.new.sides.items) }
        ensures err { OnErr result ((done_of : ℕ → Done) →
            KeepsSides done_of self.old.sides.items → KeepsSides done_of self.new.sides.items) }
    {
        let at = rank as usize;
        grow_to(&mut self.sides, alloc, at + 1)?;
        let side = &mut self.sides[at];
        side.post(group)
    }

    /// One start more of the rank, to a group.
    pub(crate) fn start(
        &mut self,
        alloc: Global,
        rank: u8,
        group: &[bool; 16],
    ) -> Result<(), NoMemory>
        ensures ok { OnOk result ((before after : ℕ → Done) (members : List ℕ) →
            IsGroup group.now members →
            IsSameFor rank before after → after rank ≡ with_start (before rank) members →
            KeepsSides before self.old.sides.items → KeepsSides after self.new.sides.items) }
        ensures err { OnErr result ((done_of : ℕ → Done) →
            KeepsSides done_of self.old.sides.items → KeepsSides done_of self.new.sides.items) }
    {
        let at = rank as usize;
        grow_to(&mut self.sides, alloc, at + 1)?;
        let side = &mut self.sides[at];
        side.start(group)
    }

    /// One complete more of the rank.
    pub(crate) fn complete(&mut self, alloc: Global, rank: u8) -> Result<(), NoMemory>
        ensures ok { OnOk result ((before after : ℕ → Done) →
            IsSameFor rank before after → after rank ≡ with_complete (before rank) →
            KeepsSides before self.old.sides.items → KeepsSides after self.new.sides.items) }
        ensures err { OnErr result ((done_of : ℕ → Done) →
            KeepsSides done_of self.old.sides.items → KeepsSides done_of self.new.sides.items) }
    {
        let at = rank as usize;
        grow_to(&mut self.sides, alloc, at + 1)?;
        let side = &mut self.sides[at];
        side.complete()
    }

    /// One wait or true testwin more of the rank.
    pub(crate) fn wait(&mut self, alloc: Global, rank: u8) -> Result<(), NoMemory>
        ensures ok { OnOk result ((before after : ℕ → Done) →
            IsSameFor rank before after → after rank ≡ with_wait (before rank) →
            KeepsSides before self.old.sides.items → KeepsSides after self.new.sides.items) }
        ensures err { OnErr result ((done_of : ℕ → Done) →
            KeepsSides done_of self.old.sides.items → KeepsSides done_of self.new.sides.items) }
    {
        let at = rank as usize;
        grow_to(&mut self.sides, alloc, at + 1)?;
        let side = &mut self.sides[at];
        side.wait()
    }
}
