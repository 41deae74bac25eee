//! What a rank does at its end.
ghost use Rattle.std.specs.Prelude.{◌≡◌, ◌+◌, ◌≤◌, true, false, IfOk, OnOk};
ghost use Rattle.rank_engine.specs.DataAnswers.{HasRoom};
ghost use Rattle.shared_ranks.specs.Drains.{KeepsDelivering};
ghost use Rattle.shared_ranks.specs.Ranks.{HasLivedWhole, IsSameMemory, IsSomeRank};
ghost use Rattle.shared_ranks.specs.Standings.{has_stopped};
ghost use Rattle.step_runs.specs.Agents.{has_pending};

use crate::ranks::Rank;
use board_turns::Turning;
use cell_face::Memory;
use rank_engine::Turned;
use rma_types::NoMemory;
use std::sync::Wait;

impl<'s, M: Memory + Drop, T: Turning<M::Note>> Rank<'s, M, T> {
    /// Delivers the first pending access, or a part of it where an attempt came too late; whether there was one.
    fn deliver_first(&mut self) -> Result<bool, NoMemory>
        requires { HasRoom self.old.state (M.face self.old.memory) }
        ensures delivers { OnOk result (KeepsDelivering M.face M.knows self.old self.new) }
        ensures over { IfOk result (λ more.
            more ≡ false → has_pending self.new.state.agent ≡ false) }
        ensures room { OnOk result (HasRoom self.new.state (M.face self.new.memory)) }
        ensures ended { OnOk result
            (self.new.state.agent.ended ≡ self.old.state.agent.ended) }
        ensures seat { self.new.seat ≡ self.old.seat }
        ensures memory { IsSameMemory (M.face self.old.memory) (M.face self.new.memory) }
    {
        self.agent.has_room();
        self.agent.is_sound();
        let turned = self.agent.drain(&mut self.memory)?;
        Ok(turned != Turned::Ended)
    }

    /// Delivers all accesses of a rank that are pending after its last step (MPI 3.1, section 11.7).
    pub fn drain<R: Wait>(&mut self, rt: &R) -> Result<(), NoMemory>
        requires ready { IsSomeRank M.face M.knows self.old }
        requires stopped { has_stopped self.old.standing ≡ true }
        ensures lived { OnOk result (HasLivedWhole M.face M.knows self.old self.new) }
        ensures ended { OnOk result
            (self.new.state.agent.ended ≡ self.old.state.agent.ended) }
        ensures seat { self.new.seat ≡ self.old.seat }
        ensures memory { IsSameMemory (M.face self.old.memory) (M.face self.new.memory) }
    {
        for _ in rt.forever() {
            if !self.deliver_first()? {
                return Ok(());
            }
        }
        unreachable!()
    }
}
