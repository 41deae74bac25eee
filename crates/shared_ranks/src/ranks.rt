//! A rank that shares the board and the cells with others.
ghost use Rattle.std.specs.Prelude.{◌≡◌, [], length};
ghost use Rattle.board_turns.specs.Places.{IsSameSeat};
ghost use Rattle.shared_ranks.specs.Ranks.{BeginsAsRank, RestsAt, StaysRank};
ghost use Rattle.shared_ranks.specs.Standings.{standing_with};
ghost use Rattle.shared_ranks.specs.declared.standings.Standing.TheVariants.{Going};
ghost use Rattle.turn_lock.specs.Lists.{longer};

use crate::passes::Passes;
use crate::standings::Standing;
use board_turns::Turning;
use cell_face::Memory;
use rank_engine::Agent;
use rma_record::Log;
use rma_types::Script;
use std::marker::Model;

/// One rank of a run, with its memory, which may be cells that others use too, and its seat at the turn round the
/// board.
///
/// Contracts see the rank's state, the value of its memory, the plain data of its seat, and how it stands.
#[derive(Drop)]
pub struct Rank<'s, M: Memory + Drop, T: Turning<M::Note>> {
    pub(crate) agent: Agent<'s, Log>,
    pub(crate) memory: M,
    pub(crate) seat: T::Seat,
    pub(crate) standing: Standing,
    /// How many entries its seat knows.
    pub(crate) known: usize,
    pub(crate) passes: Passes,
}

impl<'s, M: Memory + Drop, T: Turning<M::Note>> Model for Rank<'s, M, T> {
    ghost use Rattle.std.specs.Prelude.{◌≡◌, length};
    ghost use Rattle.shared_ranks.specs.Ranks.{RankNow};

    ghost Value = { RankNow M };

    ghost view = { λ it. record {
      state = it.agent;
      memory = it.memory;
      seat = T.place it.seat;
      standing = it.standing;
    } };

    ghost invariant = { λ it. it.known ≡ length (T.place it.seat).known };
}

/// What a rank leaves at its end.
#[derive(Drop)]
pub struct Parts<M, S> {
    pub log: Log,
    /// Whether the rank has ended.
    pub has_ended: bool,
    pub memory: M,
    pub seat: S,
}

impl<'s, M: Memory + Drop, T: Turning<M::Note>> Rank<'s, M, T> {
    /// A rank of this script, with its memory and its seat. Its number and its calls are told to gates.
    pub fn new(
        script: &Script,
        number: u8,
        agent: Agent<'s, Log>,
        memory: M,
        seat: T::Seat,
    ) -> Rank<'s, M, T>
        requires fresh { (T.place seat).known ≡ [] }
        ensures made { result ≡ record {
          state = agent.entry;
          memory = memory;
          seat = T.place seat;
          standing = Going;
        } }
        ensures begins { BeginsAsRank M.face M.knows result }
    {
        Rank {
            agent,
            memory,
            seat,
            standing: Standing::Going,
            known: 0,
            passes: Passes::new(script, number),
        }
    }

    /// How the rank stands.
    pub fn standing(&self) -> Standing
        ensures { result ≡ self.now.standing }
    {
        self.standing
    }

    /// How many entries the rank knows.
    pub fn entries_known(&self) -> usize
        ensures { result ≡ length self.now.seat.known }
    {
        self.known
    }

    /// Learns what another rank knows. Where that was more, a rank that waits tries again.
    pub fn catch_up(&mut self, other: &mut Rank<'_, M, T>, turn: &T)
        requires rests { RestsAt (T.round turn.now) self.old.seat }
        requires other_rests { RestsAt (T.round turn.now) other.old.seat }
        ensures stays { StaysRank M.face M.knows self.old self.new }
        ensures state { self.new.state ≡ self.old.state }
        ensures memory { self.new.memory ≡ self.old.memory }
        ensures seat { IsSameSeat self.old.seat self.new.seat }
        ensures rests { RestsAt (T.round turn.now) self.new.seat }
        ensures knows { self.new.seat.known ≡ longer self.old.seat.known other.old.seat.known }
        ensures standing { self.new.standing ≡ standing_with
            (length self.old.seat.known) (length self.new.seat.known) self.old.standing }
        ensures other_stays { other.new ≡ other.old }
    {
        turn.catch_up(&mut self.seat, &mut other.seat);
        if self.known < other.known {
            self.known = other.known;
            self.standing = self.standing.tried_again();
        }
    }

    /// The log of the rank, whether it has ended, its memory and its seat.
    pub fn into_parts(self) -> Parts<M, T::Seat>
        ensures log { result.log.items ≡ self.entry.state.agent.log }
        ensures ended { result.has_ended ≡ self.entry.state.agent.ended }
        ensures memory { result.memory ≡ self.entry.memory }
        ensures seat { T.place result.seat ≡ self.entry.seat }
    {
        let Rank {
            agent,
            memory,
            seat,
            standing: _,
            known: _,
            passes: _,
        } = self;
        let has_ended = agent.has_ended();
        Parts {
            log: agent.into_log(),
            has_ended,
            memory,
            seat,
        }
    }
}
