//! The rounds of the ranks on one window: creations, frees and fences (MPI 3.1, sections 11.2.1 and 11.5.1).
ghost use Rattle.std.specs.Prelude.{◌≡◌, ℕ, ◌<◌, ◌≤◌, Some, length, OnOk, OnErr};
ghost use Rattle.std.specs.List.{list_any};
ghost use Rattle.rma_types.specs.declared.calls.Call.{Call};
ghost use Rattle.board_rules.specs.Entries.{collective_of};
ghost use Rattle.board_rules.specs.Questions.{Question};
ghost use Rattle.board_rules.specs.Rounds.{all_arrived, has_other_asserts, has_other_flavor, is_differing_creation};
ghost use Rattle.board_rules.specs.Rounds.{is_differing_fence};
ghost use Rattle.sync_board.specs.Rounds.{arrival_in, arrivals_by, asserts_in, collective_by, flavor_in, with_creation};
ghost use Rattle.sync_board.specs.Rounds.{with_fence, with_free};
ghost use Rattle.sync_board.specs.Sides.{Done, done_at};
ghost use Rattle.sync_board.specs.Tables.{HasNoRounds, IsSameFor, KeepsRounds};

use crate::grown::grow_to;
use crate::rounds::{Kind, Rounds};
use rma_types::{Asserts, Flavor, NoMemory};
use std::alloc::Global;

/// The rounds of the ranks up to the last that has arrived.
#[derive(Debug, Drop)]
pub(crate) struct RoundTable {
    pub(crate) rounds: Vec<Rounds>,
}

impl RoundTable {
    /// No rank has arrived.
    pub(crate) fn new(alloc: Global) -> RoundTable
        ensures { (done_of : ℕ → Done) → ((rank : ℕ) → HasNoRounds (done_of rank)) →
            KeepsRounds done_of result.rounds.items }
    {
        RoundTable {
            rounds: Vec::new(alloc),
        }
    }

    /// How often the rank has arrived.
    pub(crate) fn begun(&self, kind: Kind, rank: usize) -> usize
        ensures { (done_of : ℕ → Done) → KeepsRounds done_of self.now.rounds.items →
            result ≡ length (arrivals_by kind (done_of rank)) }
    {
        match self.rounds.get(rank) {
            Some(rounds) => rounds.begun(kind),
            None => 0,
        }
    }

    /// The rank has arrived at the fence of the round with other assertions.
    fn fence_differs(&self, rank: usize, round: usize, asserts: Asserts) -> bool
        ensures { (done_of : ℕ → Done) → KeepsRounds done_of self.now.rounds.items →
            result ≡ list_any (is_differing_fence asserts) (arrival_in (done_of rank).fences round) }
    {
        match self.rounds.get(rank) {
            Some(rounds) => rounds.fence_differs(round, asserts),
            None => false,
        }
    }

    /// The rank has arrived at the creation of the round with another flavor.
    fn creation_differs(&self, rank: usize, round: usize, flavor: Flavor) -> bool
        ensures { (done_of : ℕ → Done) → KeepsRounds done_of self.now.rounds.items →
            result ≡ list_any (is_differing_creation flavor) (arrival_in (done_of rank).creations round) }
    {
        match self.rounds.get(rank) {
            Some(rounds) => rounds.creation_differs(round, flavor),
            None => false,
        }
    }

    /// Every rank has arrived at the collective calls of the kind as often as this one.
    pub(crate) fn have_all_arrived(&self, kind: Kind, ranks: usize, rank: usize) -> bool
        ensures { (q : Question) → q.rank ≡ rank → q.ranks ≡ ranks →
            collective_of q.call ≡ Some (collective_by kind) →
            KeepsRounds (done_at q) self.now.rounds.items → result ≡ all_arrived q }
    {
        let begun = self.begun(kind, rank);
        for other in 0..ranks {
            let arrived = self.begun(kind, other);
            if arrived < begun {
                return false;
            }
        }
        true
    }

    /// A rank has arrived at the next fence of this one with other assertions.
    pub(crate) fn has_other_fence(&self, ranks: usize, rank: usize, asserts: Asserts) -> bool
        ensures { (q : Question) → q.rank ≡ rank → q.ranks ≡ ranks →
            collective_of q.call ≡ Some (collective_by Kind.Fence) →
            KeepsRounds (done_at q) self.now.rounds.items → result ≡ has_other_asserts q asserts }
    {
        let round = self.begun(Kind::Fence, rank);
        for other in 0..ranks {
            if self.fence_differs(other, round, asserts) {
                return true;
            }
        }
        false
    }

    /// A rank has arrived at this creation with another flavor.
    pub(crate) fn has_other_creation(&self, ranks: usize, rank: usize, flavor: Flavor) -> bool
        ensures { (q : Question) → q.rank ≡ rank → q.ranks ≡ ranks →
            collective_of q.call ≡ Some (collective_by Kind.Creation) →
            KeepsRounds (done_at q) self.now.rounds.items → result ≡ has_other_flavor q flavor }
    {
        let round = self.begun(Kind::Creation, rank);
        for other in 0..ranks {
            if self.creation_differs(other, round, flavor) {
                return true;
            }
        }
        false
    }

    /// One arrival more of the rank at the window's creation.
    pub(crate) fn create(&mut self, alloc: Global, rank: u8, flavor: Flavor) -> Result<(), NoMemory>
        ensures ok { OnOk result ((before after : ℕ → Done) (call : Call) →
            flavor_in call ≡ Some flavor →
            IsSameFor rank before after → after rank ≡ with_creation (before rank) call →
            KeepsRounds before self.old.rounds.items → KeepsRounds after self.new.rounds.items) }
        ensures err { OnErr result ((done_of : ℕ → Done) →
            KeepsRounds done_of self.old.rounds.items → KeepsRounds done_of self.new.rounds.items) }
    {
        let at = rank as usize;
        grow_to(&mut self.rounds, alloc, at + 1)?;
        let rounds = &mut self.rounds[at];
        rounds.create(flavor)
    }

    /// One arrival more of the rank at a free.
    pub(crate) fn free(&mut self, alloc: Global, rank: u8) -> Result<(), NoMemory>
        ensures ok { OnOk result ((before after : ℕ → Done) (call : Call) →
            IsSameFor rank before after → after rank ≡ with_free (before rank) call →
            KeepsRounds before self.old.rounds.items → KeepsRounds after self.new.rounds.items) }
        ensures err { OnErr result ((done_of : ℕ → Done) →
            KeepsRounds done_of self.old.rounds.items → KeepsRounds done_of self.new.rounds.items) }
    {
        let at = rank as usize;
        grow_to(&mut self.rounds, alloc, at + 1)?;
        let rounds = &mut self.rounds[at];
        rounds.free()
    }

    /// One arrival more of the rank at a fence.
    pub(crate) fn fence(
        &mut self,
        alloc: Global,
        rank: u8,
        asserts: Asserts,
    ) -> Result<(), NoMemory>
        ensures ok { OnOk result ((before after : ℕ → Done) (call : Call) →
            asserts_in call ≡ Some asserts →
            IsSameFor rank before after → after rank ≡ with_fence (before rank) call →
            KeepsRounds before self.old.rounds.items → KeepsRounds after self.new.rounds.items) }
        ensures err { OnErr result ((done_of : ℕ → Done) →
            KeepsRounds done_of self.old.rounds.items → KeepsRounds done_of self.new.rounds.items) }
    {
        let at = rank as usize;
        grow_to(&mut self.rounds, alloc, at + 1)?;
        let rounds = &mut self.rounds[at];
        rounds.fence(asserts)
    }
}
