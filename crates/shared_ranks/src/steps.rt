//! What a rank does in a round.
ghost use Rattle.std.specs.Prelude.{◌≡◌, true, false};
ghost use mathlib.Core.List.{IsPrefix};
ghost use Rattle.board_turns.specs.Places.{IsSameSeat};
ghost use Rattle.rank_engine.specs.BoardAnswers.{AlwaysTells};
ghost use Rattle.rank_engine.specs.RankStates.{needs_entry};
ghost use Rattle.shared_ranks.specs.Ranks.{IsSameMemory, IsSomeRank, StaysRank};
ghost use Rattle.shared_ranks.specs.Standings.{is_going};
ghost use Rattle.shared_ranks.specs.declared.standings.Standing.TheVariants.{Going};

use crate::ranks::Rank;
use crate::standings::Standing;
use board_turns::Turning;
use cell_face::Memory;
use rma_types::Gate;
use std::sync::Wait;

impl<'s, M: Memory + Drop, T: Turning<M::Note>> Rank<'s, M, T> {
    /// A step at the board, which is given back also where memory runs out.
    fn step_at_board<R: Wait>(&mut self, turn: &T, rt: &R)
        requires tells { AlwaysTells M.Note.front }
        requires ready { IsSomeRank M.face M.knows self.old }
        requires turn { self.old.seat.turn ≡ T.round turn.now }
        requires going { self.old.standing ≡ Going }
        requires needs { needs_entry self.old.state ≡ true }
        ensures stays { StaysRank M.face M.knows self.old self.new }
        ensures seat { IsSameSeat self.old.seat self.new.seat }
        ensures knows { IsPrefix self.old.seat.known self.new.seat.known }
        ensures memory { IsSameMemory (M.face self.old.memory) (M.face self.new.memory) }
    {
        self.agent.has_room();
        let mut board = turn.take(&mut self.seat, rt);
        board.gifts_of_tokens();
        let turned = self.agent.next_board(&mut self.memory, &mut board);
        self.known = board.entries().len();
        let mut given = Some(board);
        turn.give(&mut self.seat, &mut given);
        self.standing = Standing::after(turned);
    }

    /// A step that tries no entry.
    fn step_on_memory(&mut self)
        requires ready { IsSomeRank M.face M.knows self.old }
        requires going { self.old.standing ≡ Going }
        requires needs { needs_entry self.old.state ≡ false }
        ensures stays { StaysRank M.face M.knows self.old self.new }
        ensures seat { self.new.seat ≡ self.old.seat }
        ensures memory { IsSameMemory (M.face self.old.memory) (M.face self.new.memory) }
    {
        self.agent.has_room();
        self.agent.is_sound();
        let turned = self.agent.next_data(&mut self.memory);
        self.standing = Standing::after(turned);
    }

    /// One step, at the board or on memory.
    fn step<R: Wait>(&mut self, turn: &T, rt: &R)
        requires tells { AlwaysTells M.Note.front }
        requires ready { IsSomeRank M.face M.knows self.old }
        requires turn { self.old.seat.turn ≡ T.round turn.now }
        requires going { self.old.standing ≡ Going }
        ensures stays { StaysRank M.face M.knows self.old self.new }
        ensures seat { IsSameSeat self.old.seat self.new.seat }
        ensures knows { IsPrefix self.old.seat.known self.new.seat.known }
        ensures memory { IsSameMemory (M.face self.old.memory) (M.face self.new.memory) }
    {
        if self.agent.needs_board() {
            self.step_at_board(turn, rt);
        } else {
            self.step_on_memory();
        }
    }

    /// Comes to the gate: it is passed where the next call is a new one.
    fn come_to<G: Gate>(&mut self, gate: &G)
        ensures { self.new ≡ self.old }
    {
        self.passes.come_to(self.agent.at(), gate);
    }

    /// Rests at the gate where the rank does not go on.
    fn rest_at<G: Gate>(&mut self, gate: &G)
        ensures { self.new ≡ self.old }
    {
        if !self.standing.is_going() {
            gate.rest(self.passes.rank);
        }
    }

    /// Goes on until the rank has ended, or its next entry is not yet possible, or memory runs out. An attempt on a
    /// cell that came too late is made again. A rank that has stopped does nothing (MPI 3.1, sections 11.5 and 11.7).
    ///
    /// The gate is passed once before each call of the rank, and never while it has the board. The board is given back
    /// also where memory ran out.
    pub fn go_on<R: Wait, G: Gate>(&mut self, turn: &T, gate: &G, rt: &R)
        requires tells { AlwaysTells M.Note.front }
        requires ready { IsSomeRank M.face M.knows self.old }
        requires turn { self.old.seat.turn ≡ T.round turn.now }
        ensures stays { StaysRank M.face M.knows self.old self.new }
        ensures left { is_going self.new.standing ≡ false }
        ensures seat { IsSameSeat self.old.seat self.new.seat }
        ensures knows { IsPrefix self.old.seat.known self.new.seat.known }
        ensures memory { IsSameMemory (M.face self.old.memory) (M.face self.new.memory) }
    {
        for _ in rt.forever() {
            if !self.standing.is_going() {
                return;
            }
            self.come_to(gate);
            self.step(turn, rt);
            self.rest_at(gate);
        }
        unreachable!()
    }
}
