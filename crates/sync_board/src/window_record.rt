//! What is kept of one window.
ghost use Rattle.std.specs.Prelude.{◌≡◌, ℕ, ◌+◌, ◌^◌, ◌<◌, ◌≤◌, Bool, false, ℤ, List, OnOk, OnErr};
ghost use Rattle.rma_types.specs.declared.accesses.Step.{Step};
ghost use Rattle.rma_types.specs.declared.accesses.Step.TheVariants.{Arrive, Leave};
ghost use Rattle.rma_types.specs.declared.scripts.Layout.{Layout};
ghost use Rattle.rma_types.specs.declared.actions.Creation.{Creation};
ghost use Rattle.rma_types.specs.declared.actions.Action.TheVariants.{Attaches, Creates, Detaches, Frees, Synchronises};
ghost use Rattle.rma_types.specs.declared.actions.Synchronisation.TheVariants.{Completes, Fences, Posts, Starts};
ghost use Rattle.rma_types.specs.declared.actions.Synchronisation.TheVariants.{Waits};
ghost use Rattle.rma_types.specs.Actions.{action_of};
ghost use Rattle.call_rules.specs.Ranks.{natural};
ghost use Rattle.rank_rules.specs.EpochTests.{is_wrong_group};
ghost use Rattle.board_rules.specs.Questions.{Question};
ghost use Rattle.sync_board.specs.Boards.{bytes_at};
ghost use Rattle.board_rules.specs.Entries.{Act};
ghost use Rattle.board_rules.specs.Shapes.{part_made};
ghost use Rattle.sync_board.specs.KeptParts.{IsInside};
ghost use Rattle.sync_board.specs.Windows.{IsUntouched, KeepsAfter, KeepsBefore, KeepsWindow};

use crate::grown::Idle;
use crate::lock_state::LockState;
use crate::parts::Parts;
use crate::region_table::RegionTable;
use crate::round_table::RoundTable;
use crate::side_table::SideTable;
use crate::truths::truths_of;
use rma_types::{Asserts, Flavor, NoMemory, Part, Ranks};
use std::alloc::Global;

/// The tables of one window. Each is empty until it is used.
#[derive(Debug, Drop)]
pub(crate) struct WindowRecord {
    pub(crate) side_table: SideTable,
    pub(crate) round_table: RoundTable,
    pub(crate) lock_state: LockState,
    pub(crate) region_table: RegionTable,
    pub(crate) parts: Parts,
}

impl Idle for WindowRecord {
    ghost is_idle = { λ kept. (layout : Layout) (ranks window : ℕ) (entries : List Act) →
        IsUntouched ranks window entries → KeepsWindow layout ranks window entries kept };

    fn idle(alloc: Global) -> WindowRecord {
        let side_table = SideTable::new(alloc);
        let round_table = RoundTable::new(alloc);
        let lock_state = LockState::new();
        let region_table = RegionTable::new(alloc);
        let parts = Parts::new(alloc);
        WindowRecord {
            side_table,
            round_table,
            lock_state,
            region_table,
            parts,
        }
    }
}

impl WindowRecord {
    /// The rank has posted to a group.
    pub(crate) fn post(
        &mut self,
        alloc: Global,
        rank: u8,
        group: &Ranks<'_>,
    ) -> Result<(), NoMemory>
        ensures ok { OnOk result ((layout : Layout) (q : Question) (number : ℕ) (step : Step)
            (win : ℕ)
            (asserts : Asserts) → q.rank ≡ rank → action_of q.call ≡ Synchronises win (Posts group.now asserts) →
            q.ranks ≤ 16 → is_wrong_group q.ranks group.now ≡ false →
            KeepsBefore layout q self.old → KeepsAfter layout q number step self.new) }
        ensures err { OnErr result ((layout : Layout) (q : Question) →
            KeepsBefore layout q self.old → KeepsBefore layout q self.new) }
    {
        let truths = truths_of(group);
        self.side_table.post(alloc, rank, &truths)
    }

    /// The rank has started to a group.
    pub(crate) fn start(
        &mut self,
        alloc: Global,
        rank: u8,
        group: &Ranks<'_>,
    ) -> Result<(), NoMemory>
        ensures ok { OnOk result ((layout : Layout) (q : Question) (number : ℕ) (step : Step)
            (win : ℕ)
            (asserts : Asserts) → q.rank ≡ rank → action_of q.call ≡ Synchronises win (Starts group.now asserts) →
            KeepsBefore layout q self.old → KeepsAfter layout q number step self.new) }
        ensures err { OnErr result ((layout : Layout) (q : Question) →
            KeepsBefore layout q self.old → KeepsBefore layout q self.new) }
    {
        let truths = truths_of(group);
        self.side_table.start(alloc, rank, &truths)
    }

    /// The rank has completed.
    pub(crate) fn complete(&mut self, alloc: Global, rank: u8) -> Result<(), NoMemory>
        ensures ok { OnOk result ((layout : Layout) (q : Question) (number : ℕ) (step : Step)
            (win : ℕ) →
            q.rank ≡ rank → action_of q.call ≡ Synchronises win Completes →
            KeepsBefore layout q self.old → KeepsAfter layout q number step self.new) }
        ensures err { OnErr result ((layout : Layout) (q : Question) →
            KeepsBefore layout q self.old → KeepsBefore layout q self.new) }
    {
        self.side_table.complete(alloc, rank)
    }

    /// The rank has waited, or its testwin was true.
    pub(crate) fn wait(&mut self, alloc: Global, rank: u8) -> Result<(), NoMemory>
        ensures ok { OnOk result ((layout : Layout) (q : Question) (number : ℕ) (step : Step)
            (win : ℕ) (tests : Bool) →
            q.rank ≡ rank → action_of q.call ≡ Synchronises win (Waits tests) →
            KeepsBefore layout q self.old → KeepsAfter layout q number step self.new) }
        ensures err { OnErr result ((layout : Layout) (q : Question) →
            KeepsBefore layout q self.old → KeepsBefore layout q self.new) }
    {
        self.side_table.wait(alloc, rank)
    }

    /// The rank has arrived at a fence.
    pub(crate) fn fence(
        &mut self,
        alloc: Global,
        rank: u8,
        asserts: Asserts,
    ) -> Result<(), NoMemory>
        ensures ok { OnOk result ((layout : Layout) (q : Question) (number : ℕ) (win : ℕ) →
            q.rank ≡ rank → action_of q.call ≡ Synchronises win (Fences asserts) →
            KeepsBefore layout q self.old → KeepsAfter layout q number Arrive self.new) }
        ensures err { OnErr result ((layout : Layout) (q : Question) →
            KeepsBefore layout q self.old → KeepsBefore layout q self.new) }
    {
        self.round_table.fence(alloc, rank, asserts)
    }

    /// The rank has arrived at a free.
    pub(crate) fn free(&mut self, alloc: Global, rank: u8) -> Result<(), NoMemory>
        ensures ok { OnOk result ((layout : Layout) (q : Question) (number : ℕ) (win : ℕ) →
            q.rank ≡ rank → action_of q.call ≡ Frees win →
            KeepsBefore layout q self.old → KeepsAfter layout q number Arrive self.new) }
        ensures err { OnErr result ((layout : Layout) (q : Question) →
            KeepsBefore layout q self.old → KeepsBefore layout q self.new) }
    {
        self.round_table.free(alloc, rank)
    }

    /// The rank has arrived at the window's creation, and brings this part to it.
    pub(crate) fn create(
        &mut self,
        alloc: Global,
        rank: u8,
        flavor: Flavor,
        part: Part,
    ) -> Result<(), NoMemory>
        ensures ok { OnOk result ((layout : Layout) (q : Question) (number : ℕ)
            (creation : Creation) →
            q.rank ≡ rank → action_of q.call ≡ Creates creation → creation.flavor ≡ flavor →
            part ≡ part_made layout rank number creation → IsInside layout rank part →
            KeepsBefore layout q self.old → KeepsAfter layout q number Arrive self.new) }
        ensures err { OnErr result ((layout : Layout) (q : Question) →
            KeepsBefore layout q self.old → KeepsBefore layout q self.new) }
    {
        self.parts.reserve(rank)?;
        match self.round_table.create(alloc, rank, flavor) {
            Ok(()) => {
                self.parts.arrive(rank, part);
                Ok(())
            }
            Err(_) => Err(NoMemory),
        }
    }

    /// The rank has attached so many bytes from the base on.
    pub(crate) fn attach(
        &mut self,
        alloc: Global,
        rank: u8,
        base: u32,
        bytes: u32,
    ) -> Result<(), NoMemory>
        requires some { 0 < bytes }
        requires end { base + bytes < 2 ^ 32 }
        ensures ok { OnOk result ((layout : Layout) (q : Question) (number : ℕ) (step : Step)
            (win : ℕ)
            (from size : ℤ) → q.rank ≡ rank → action_of q.call ≡ Attaches win from size →
            natural from ≡ base → natural size ≡ bytes →
            base + bytes ≤ bytes_at layout rank →
            KeepsBefore layout q self.old → KeepsAfter layout q number step self.new) }
        ensures err { OnErr result ((layout : Layout) (q : Question) →
            KeepsBefore layout q self.old → KeepsBefore layout q self.new) }
    {
        self.region_table.attach(alloc, rank, base, bytes)
    }

    /// The rank has detached the range that begins at the base.
    pub(crate) fn detach(&mut self, rank: u8, base: u32)
        ensures { (layout : Layout) (q : Question) (number : ℕ) (step : Step) (win : ℕ) (from : ℤ) →
            q.rank ≡ rank → action_of q.call ≡ Detaches win from → natural from ≡ base →
            KeepsBefore layout q self.old → KeepsAfter layout q number step self.new }
    {
        self.region_table.detach(rank, base);
    }

    /// The rank has freed the window.
    pub(crate) fn freed(&mut self, alloc: Global, rank: u8)
        ensures { (layout : Layout) (q : Question) (number : ℕ) (win : ℕ) →
            q.rank ≡ rank → action_of q.call ≡ Frees win →
            KeepsBefore layout q self.old → KeepsAfter layout q number Leave self.new }
    {
        self.region_table.clear(alloc, rank);
    }
}
