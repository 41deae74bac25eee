//! A rank's steps on memory, and what is delivered where it waits (MPI 3.1, section 11.7).
ghost use Rattle.std.specs.Prelude.{◌≡◌, ◌+◌, ◌≤◌, false, true, Some, None, IfOk, OnErr, IfSome, length, MatchBool};
ghost use Rattle.cell_face.specs.Faces.{Keeps, Rose};
ghost use Rattle.rank_engine.specs.DataAnswers.{HasRoom, IsDelivered, is_over as is_it_over};
ghost use Rattle.rank_engine.specs.DataAnswers.{opened_after as opened_after_of};
ghost use Rattle.rank_engine.specs.Moves.{IsFirst, IsMove};
ghost use Rattle.rank_engine.specs.RankStates.{own_move, queue_of};
ghost use Rattle.delivery_queue.specs.Queues.{DeliversWhole};
ghost use Rattle.lawful_runs.specs.Stages.{calls_at};
ghost use Rattle.rank_engine.specs.Sound.{IsSound};

use crate::agent::Agent;
use cell_face::Memory;
use rma_record::{Item, Keep};
use rma_types::NoMemory;

/// The place of an access whose delivery goes on, if it is not done.
fn opened_after(done: bool, at: usize) -> Option<usize>
    ensures { result ≡ opened_after_of done at }
{
    if done { None } else { Some(at) }
}

impl<'s, L: Keep + Drop> Agent<'s, L> {
    /// Whether all calls have their items and nothing is pending.
    pub(crate) fn is_over(&self) -> bool
        ensures { result ≡ is_it_over self.now }
    {
        self.next_call().is_none() && self.queue.count() == 0
    }

    /// The rank ends, where it has not.
    pub(crate) fn end(&mut self) -> Result<(), NoMemory>
        requires over { is_it_over self.old ≡ true }
        requires closed { self.old.opened ≡ None }
        requires free { 1 ≤ self.old.free }
        ensures moved { IfOk result (λ _. IsMove self.old self.new (own_move self.old)) }
        ensures kept { OnErr result (self.new.agent.log ≡ self.old.agent.log) }
        ensures home { OnErr result (self.new.home ≡ self.old.home) }
    {
        if self.ended {
            return Ok(());
        }
        if self.kept == u32::MAX {
            return Err(NoMemory);
        }
        self.log.reserve(1)?;
        self.log.keep(Item::Ended);
        self.kept += 1;
        self.ended = true;
        Ok(())
    }

    /// Delivers the pending access at a place, which gives way to none; no other delivery is begun. The answer is false
    /// where an attempt came too late.
    pub(crate) fn deliver<M: Memory>(&mut self, at: usize, mem: &mut M) -> Result<bool, NoMemory>
        requires first { IsFirst self.old.agent.pending at }
        requires alone { IfSome self.old.opened (λ place. place ≡ at) }
        requires free { 256 ≤ self.old.free }
        requires room { HasRoom self.old (M.face mem.old) }
        ensures delivered { IfOk result (λ done. IsDelivered (Some at)
            self.old self.new done (M.face mem.old) (M.face mem.new) (M.knows mem.new)) }
        ensures moved { IfOk result (λ done. MatchBool done
            ((M.face mem.new).moves ≡ (M.face mem.old).moves)
            (Rose (M.face mem.old).moves (M.face mem.new).moves)) }
        ensures told { IfOk result (λ done. IfSome (M.face mem.old).told (λ _. done ≡ true)) }
        ensures whole { IfOk result (λ _. IfSome (M.face mem.old).told (λ cells.
            DeliversWhole (queue_of self.old) at self.old.stage.layout
            (calls_at self.old.stage self.old.agent.rank) cells (M.face mem.new).told
            self.old.agent.log self.new.agent.log)) }
        ensures sound { IsSound self.old }
        ensures known { Keeps (M.knows mem.old) (M.knows mem.new) }
        ensures few { length self.new.agent.log ≤ length self.old.agent.log + 256 }
        ensures free { self.new.free ≤ self.old.free }
        ensures kept { OnErr result (self.new.agent.log ≡ self.old.agent.log) }
        ensures home { OnErr result (self.new.home ≡ self.old.home) }
        ensures unwritten { OnErr result (mem.new ≡ mem.old) }
    {
        if self.kept > u32::MAX - 256 {
            return Err(NoMemory);
        }
        let calls = self.calls();
        let delivery = self
            .queue
            .deliver(at, mem, self.layout, calls, &mut self.log)?;
        self.kept += delivery.touches;
        self.opened = opened_after(delivery.done, at);
        Ok(delivery.done)
    }
}
