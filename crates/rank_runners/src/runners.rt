//! A run between two turns.
ghost use Rattle.std.specs.Prelude.{◌≡◌, ◌<◌, ◌≤◌, ℕ, Bool, true, false, length, slice_index_or, slice_set, IfOk, OnOk};
ghost use Rattle.call_rules.specs.Layout.{layout as memory_layout};
ghost use Rattle.call_rules.specs.WellFormed.{IsWellFormed};
ghost use Rattle.lawful_runs.specs.Stages.{Stage, stage_of};
ghost use Rattle.rank_engine.specs.RankStates.{RankState, needs_entry};
ghost use Rattle.rank_runners.specs.RankSets.{has};
ghost use Rattle.rank_runners.specs.Runs.{GoesOn, HasTurn, IsInWorld, LeadsOn, IsNext, IsOneTurn, IsReady, IsRun};
ghost use Rattle.rank_runners.specs.Runs.{IsSome, IsWorld, at_board, on_memory, turn_of};
ghost use Rattle.step_runs.specs.Schedules.{pick};
ghost use Rattle.step_runs.specs.StepRun.{World, drain, drain_rank, first_world, is_ready, run_from, run_of};

use crate::ends::{bits_of, have_ended, logs_of};
use crate::rank_sets::RankSet;
use crate::ranks::{deliver_first, step_at_board, step_on_memory};
use crate::schedules::Turns;
use crate::starts::{new_agents, new_memory};
use cell_face::{NoNote, PlainMemory};
use kept_rows::kept_rows_are_enough;
use rank_engine::Agent;
use rma_record::{Log, Run};
use rma_types::{Delay, Layout, NoMemory, Order, Script};
use std::alloc::Global;
use sync_board::Board;

/// The ranks, the board, the memory and the schedule, and the ranks that have ended.
#[derive(Drop)]
pub(crate) struct Runner<'s> {
    agents: Vec<Agent<'s, Log>>,
    board: Board<NoNote>,
    memory: PlainMemory,
    turns: Turns,
    ended: RankSet,
}

impl<'s> Runner<'s> {
    /// A run before the first turn. The seed is that of the run.
    pub(crate) fn new(
        alloc: Global,
        script: &'s Script,
        layout: &'s Layout,
        order: Order,
        delay: Delay,
        seed: u32,
    ) -> Result<Runner<'s>, NoMemory>
        requires formed { IsWellFormed script.now }
        requires layout { layout.now ≡ memory_layout script.now }
        ensures { IfOk result (λ runner. IsRun (stage_of script.now delay) runner
            (first_world (stage_of script.now delay) order seed)) }
    {
        let memory = new_memory(alloc, layout)?;
        let board = Board::new(alloc, script.ranks, layout, NoNote)?;
        let agents = new_agents(alloc, script, layout, delay, seed)?;
        Ok(Runner {
            agents,
            board,
            memory,
            turns: Turns::new(order, script.ranks, seed),
            ended: RankSet::none(),
        })
    }

    /// A turn of a rank at the board.
    fn board_turn(&mut self, rank: u8) -> Result<(), NoMemory>
        requires { HasTurn self.old rank true }
        ensures { OnOk result (IsOneTurn self.old self.new rank (at_board rank)) }
    {
        kept_rows_are_enough();
        let before = self.board.entries().len();
        let waits = step_at_board(
            &mut self.agents[usize::from(rank)],
            &mut self.memory,
            &mut self.board,
        )?;
        let has_entered = before < self.board.entries().len();
        self.turns.after_board(has_entered, waits, rank);
        Ok(())
    }

    /// A turn of a rank that tries no entry.
    fn data_turn(&mut self, rank: u8) -> Result<(), NoMemory>
        requires { HasTurn self.old rank false }
        ensures { OnOk result (IsOneTurn self.old self.new rank (on_memory rank)) }
    {
        step_on_memory(&mut self.agents[usize::from(rank)], &mut self.memory)?;
        Ok(())
    }

    /// One step of a rank, at the board or on memory.
    fn one_turn(&mut self, rank: u8) -> Result<(), NoMemory>
        requires { IsReady self.old rank }
        ensures { OnOk result (IsOneTurn self.old self.new rank (turn_of rank)) }
    {
        if self.agents[usize::from(rank)].needs_board() {
            self.board_turn(rank)?;
            Ok(())
        } else {
            self.data_turn(rank)?;
            Ok(())
        }
    }

    /// A turn of a rank.
    fn take_turn(&mut self, rank: u8) -> Result<(), NoMemory>
        requires { IsReady self.old rank }
        ensures { OnOk result (GoesOn self.old self.new (turn_of rank)) }
    {
        self.one_turn(rank)?;
        let has_ended = self.agents[usize::from(rank)].has_ended();
        self.ended = self.ended.with_if(rank, has_ended);
        Ok(())
    }

    /// Picks the rank of the next turn, and gives it the turn; none where no rank may have one.
    fn next_rank(&mut self, order: Order, ranks: u8) -> Option<u8>
        requires some { IsSome self.old }
        requires ranks { length self.old.agents.items ≡ ranks }
        ensures { (stage : Stage) (world : World) → IsRun stage self.old world →
            IsNext stage self.new world (pick order (is_ready stage world) stage.script.ranks world.schedule) result }
    {
        let ready = self.ended.outside(self.turns.waiting());
        self.turns.pick(order, ready, ranks)
    }

    /// Has at most so many turns, until no rank may have one.
    pub(crate) fn run(&mut self, order: Order, ranks: u8, turns: u32) -> Result<(), NoMemory>
        requires some { IsSome self.old }
        requires ranks { length self.old.agents.items ≡ ranks }
        ensures { OnOk result (GoesOn self.old self.new
            (λ stage world. run_from stage order turns world)) }
    {
        for _turn in 0..turns {
            match self.next_rank(order, ranks) {
                None => return Ok(()),
                Some(rank) => self.take_turn(rank)?,
            }
        }
        Ok(())
    }

    /// Delivers all pending accesses of a rank, in the order of their Issues.
    fn drain_rank(&mut self, rank: u8) -> Result<(), NoMemory>
        requires world { IsInWorld self.old }
        requires rank { rank < length self.old.agents.items }
        ensures { OnOk result (LeadsOn self.old self.new
            (λ stage world. drain_rank stage world rank)) }
    {
        let mut more = true;
        'deliveries: while more {
            more = deliver_first(&mut self.agents[usize::from(rank)], &mut self.memory)?;
        }
        Ok(())
    }

    /// Delivers all pending accesses, by rank and by the order of their Issues.
    pub(crate) fn drain(&mut self, ranks: u8) -> Result<(), NoMemory>
        requires world { IsInWorld self.old }
        requires ranks { length self.old.agents.items ≡ ranks }
        ensures { OnOk result (LeadsOn self.old self.new drain) }
    {
        for rank in 0..ranks {
            self.drain_rank(rank)?;
        }
        Ok(())
    }

    /// The run that the state is, where no turn is left. The memory has so many cells.
    pub(crate) fn into_run(self, alloc: Global, cells: u32) -> Result<Run, NoMemory>
        requires { length self.memory.cells ≡ cells }
        ensures { IfOk result (λ run. (stage : Stage) (world : World) →
            IsWorld stage self.entry.agents.items self.entry.board self.entry.memory world → run ≡ run_of world) }
    {
        let Runner {
            agents,
            board: _,
            memory,
            turns: _,
            ended: _,
        } = self;
        let ended = have_ended(&agents);
        let memory = bits_of(alloc, &memory, cells)?;
        let logs = logs_of(alloc, agents)?;
        Ok(Run {
            logs,
            memory,
            ended,
        })
    }
}
