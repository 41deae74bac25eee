//! A rank that takes its steps one after another.
ghost use Rattle.std.specs.Prelude.{◌≡◌, true, false, IfOk, OnOk};
ghost use Rattle.cell_words.specs.Holders.{face_of};
ghost use Rattle.rank_engine.specs.BoardAnswers.{AreTold};
ghost use Rattle.rank_engine.specs.DataAnswers.{HasRoom, is_again};
ghost use Rattle.rank_engine.specs.RankStates.{needs_entry};
ghost use Rattle.engine_tests.specs.Seated.{GoesOn, GoesOnAlone, IsSeated, MeetsGains};

use cell_face::Memory;
use cell_words::CellNote;
use moving_memory::MovingMemory;
use rank_engine::{Agent, Turned};
use rma_record::Log;
use rma_types::NoMemory;
use std::alloc::Global;
use sync_board::Board;

/// A step that was taken, and what it came to.
#[derive(Clone, Copy, Debug, PartialEq, Eq)]
pub enum Taken {
    AtBoard(Turned),
    OnMemory(Turned),
    Drained(Turned),
}

/// Whether the rank takes no more steps by itself: it waits, or has ended.
fn rests(taken: Taken) -> bool {
    match taken {
        Taken::AtBoard(turned) | Taken::OnMemory(turned) | Taken::Drained(turned) => {
            turned == Turned::NotYet || turned == Turned::Ended
        }
    }
}

/// A rank, its memory, and the steps that it took.
#[derive(Drop)]
pub struct Player<'r> {
    pub agent: Agent<'r, Log>,
    pub memory: MovingMemory<'r>,
    pub steps: Vec<Taken>,
}

/// What became of a rank: its steps, the share that is left, and its log.
#[derive(Drop)]
pub struct Played {
    pub steps: Vec<Taken>,
    pub share: u32,
    pub log: Log,
}

impl<'r> Player<'r> {
    /// A rank that took no step.
    pub fn new(alloc: Global, agent: Agent<'r, Log>, memory: MovingMemory<'r>) -> Player<'r>
        ensures agent { result.agent ≡ agent.entry }
        ensures memory { result.memory ≡ memory.entry }
    {
        Player {
            agent,
            memory,
            steps: Vec::new(alloc),
        }
    }

    /// A step at the board. Each token that is given tells the lowest places, and what is gained is met.
    fn step_at_board(&mut self, board: &mut Board<CellNote<'r>>) -> Result<Turned, NoMemory>
        requires needs { needs_entry self.old.agent ≡ true }
        requires seated { IsSeated self.old.agent board.old (face_of self.old.memory) }
        ensures goes_on { IfOk result (λ _. GoesOn self.old.agent self.new.agent
            board.old board.new (face_of self.new.memory)) }
        ensures gifts { IfOk result (λ _.
            AreTold (face_of self.old.memory) board.old board.new) }
        ensures gains { IfOk result (λ _. MeetsGains self.old.agent
            board.old board.new (face_of self.new.memory)) }
    {
        self.agent.has_room();
        self.agent.next_board(&mut self.memory, board)
    }

    /// A step without the board. Where an attempt came too late, the next step is none at the board.
    #[tactic(auto, using(crate::proofs::KeptSeats::stays_open))]
    fn step_on_memory(&mut self) -> Result<Turned, NoMemory>
        requires needs { needs_entry self.old.agent ≡ false }
        requires room { HasRoom self.old.agent (face_of self.old.memory) }
        ensures goes_on { IfOk result (λ _. GoesOnAlone self.old.agent self.new.agent
            (face_of self.old.memory) (face_of self.new.memory)) }
        ensures open { IfOk result (λ turned. is_again turned ≡ true →
            needs_entry self.new.agent ≡ false) }
    {
        self.agent.next_data(&mut self.memory)
    }

    fn take_step(&mut self, board: &mut Board<CellNote<'r>>) -> Result<Taken, NoMemory>
        requires seated { IsSeated self.old.agent board.old (face_of self.old.memory) }
        ensures goes_on { IfOk result (λ _. GoesOn self.old.agent self.new.agent
            board.old board.new (face_of self.new.memory)) }
    {
        if self.agent.needs_board() {
            let turned = self.step_at_board(board)?;
            Ok(Taken::AtBoard(turned))
        } else {
            let turned = self.step_on_memory()?;
            Ok(Taken::OnMemory(turned))
        }
    }

    /// Takes steps, at most so many, until the rank waits or has ended.
    pub fn play(&mut self, board: &mut Board<CellNote<'r>>, most: u32) -> Result<(), NoMemory>
        requires seated { IsSeated self.old.agent board.old (face_of self.old.memory) }
        ensures goes_on { OnOk result (GoesOn self.old.agent self.new.agent
            board.old board.new (face_of self.new.memory)) }
    {
        for _step in 0..most {
            let taken = self.take_step(board)?;
            self.steps.push(taken).map_err(|_| NoMemory)?;
            if rests(taken) {
                return Ok(());
            }
        }
        Ok(())
    }

    fn deliver(&mut self) -> Result<Turned, NoMemory>
        requires room { HasRoom self.old.agent (face_of self.old.memory) }
        ensures room { IfOk result (λ _. HasRoom self.new.agent (face_of self.new.memory)) }
    {
        self.agent.has_room();
        self.agent.drain(&mut self.memory)
    }

    /// Delivers what is pending, in at most so many steps.
    pub fn drain(&mut self, most: u32) -> Result<(), NoMemory>
        requires room { HasRoom self.old.agent (face_of self.old.memory) }
    {
        for _step in 0..most {
            let taken = Taken::Drained(self.deliver()?);
            self.steps.push(taken).map_err(|_| NoMemory)?;
            if rests(taken) {
                return Ok(());
            }
        }
        Ok(())
    }

    pub fn into_played(self) -> Played {
        let Player {
            agent,
            memory,
            steps,
        } = self;
        Played {
            steps,
            share: memory.share(),
            log: agent.into_log(),
        }
    }
}
