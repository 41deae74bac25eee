//! A rank of a run.
ghost use Rattle.std.specs.Prelude.{◌≡◌, ◌<◌, ◌≤◌, [], length, slice_index_or, is_some, true, false};
ghost use Rattle.std.specs.Prelude.{IfOk, OnErr, IfSome};
ghost use Rattle.std.specs.List.{AllByRecursion};
ghost use Rattle.std.specs.Option.{option_copied};
ghost use Rattle.call_rules.specs.WellFormed.{IsWrittenCall};
ghost use Rattle.lawful_runs.specs.Stages.{calls_at};
ghost use Rattle.rank_rules.specs.Knowledge.{own_class as class_by_rank};
ghost use Rattle.step_runs.specs.BoardSteps.{board_step};
ghost use Rattle.sync_board.specs.Boards.{rows_on};
ghost use Rattle.step_runs.specs.Agents.{next_call as next_call_of, begins_with_entry, is_seeded, must_draw};
ghost use Rattle.call_rules.specs.Layout.{layout as memory_layout};
ghost use Rattle.call_rules.specs.WellFormed.{IsWellFormed};
ghost use Rattle.cell_face.specs.Faces.{Keeps};
ghost use Rattle.rank_engine.specs.BoardAnswers.{AlwaysTells, AreTold, IsBoardAnswer, IsBoardOf};
ghost use Rattle.rank_engine.specs.DataAnswers.{HasRoom, IsDataAnswer, IsWholeStep, IsDrainAnswer, IsWholeDrain};
ghost use Rattle.rank_engine.specs.DataAnswers.{is_again, is_full};
ghost use Rattle.rank_engine.specs.Entering.{IsHandedOver};
ghost use Rattle.rank_engine.specs.KeptItems.{KeepsItems, PutsFirst};
ghost use Rattle.rank_engine.specs.Moves.{IsFirst};
ghost use Rattle.rank_engine.specs.RankStates.{new_state, needs_entry};
ghost use Rattle.rank_engine.specs.Refusals.{RefusesAlone, WhereRefused};
ghost use Rattle.rank_engine.specs.Sound.{IsSound};

use crate::answers::Turned;
use crate::courses::{course_of, is_transfer};
use crate::judging::own_class;
use crate::updates::calls_of;
use cell_face::Memory;
use delivery_queue::Pending;
use rank_epochs::EpochState;
use rma_record::{Keep, Log};
use rma_types::{Call, Class, Delay, Layout, NoMemory, Script};
use std::alloc::Global;
use std::marker::Model;
use sync_board::Board;
use window_regions::WindowTable;

/// For how many items room is asked before a step.
const STEP_ROOM: u32 = 300;

/// One rank of a run: its log, what it knows of windows, epochs and requests, its pending accesses, and how far it has
/// come.
#[derive(Drop)]
pub struct Agent<'s, L: Keep + Drop> {
    pub(crate) script: &'s Script,
    pub(crate) layout: &'s Layout,
    pub(crate) delay: Delay,
    pub(crate) rank: u8,
    pub(crate) windows: WindowTable,
    pub(crate) epochs: EpochState,
    pub(crate) queue: Pending,
    pub(crate) at: u32,
    pub(crate) entered: bool,
    pub(crate) drawn: bool,
    pub(crate) draws: u64,
    pub(crate) ended: bool,
    /// The place of the pending access whose delivery is begun.
    pub(crate) opened: Option<usize>,
    pub(crate) log: L,
    /// The number of items in the log.
    pub(crate) kept: u32,
}

impl<'s, L: Keep + Drop> Model for Agent<'s, L> {
    ghost use Rattle.std.specs.Prelude.{◌≡◌, length};
    ghost use Rattle.rank_engine.specs.RankStates.{RankState, state_of};
    ghost use Rattle.rank_engine.specs.Sound.{IsSound};

    ghost Value = { RankState };

    ghost view = { λ it. state_of it.script.now it.layout.now it.delay it.rank (L.kept it.log)
        it.windows it.epochs it.queue it.at it.entered it.drawn it.draws it.ended it.opened (L.free it.log)
        (L.home it.log) };

    ghost invariant = { λ it. IsSound (state_of it.script.now it.layout.now it.delay it.rank (L.kept it.log)
        it.windows it.epochs it.queue it.at it.entered it.drawn it.draws it.ended it.opened (L.free it.log)
        (L.home it.log))
        × (it.kept ≡ length (L.kept it.log)) };
}

/// The bytes of a rank's space.
fn space_of(script: &Script, rank: u8) -> u32
    ensures { result ≡ slice_index_or script.now.spaces rank 0 }
{
    match script.spaces.get(usize::from(rank)) {
        Some(space) => *space,
        None => 0,
    }
}

impl<'s, L: Keep + Drop> Agent<'s, L> {
    /// A rank before its first call. The seed is that of the run.
    pub fn new(
        alloc: Global,
        rank: u8,
        script: &'s Script,
        layout: &'s Layout,
        delay: Delay,
        seed: u32,
        log: L,
    ) -> Result<Agent<'s, L>, NoMemory>
        requires formed { IsWellFormed script.now }
        requires rank { rank < script.now.ranks }
        requires layout { layout.now ≡ memory_layout script.now }
        requires log { L.kept log ≡ [] }
        ensures { IfOk result (λ agent. agent ≡
            new_state script.now delay seed rank (L.free log) (L.home log)) }
    {
        let space = space_of(script, rank);
        Ok(Agent {
            script,
            layout,
            delay,
            rank,
            windows: WindowTable::new(alloc, rank, script.ranks, space),
            epochs: EpochState::new(),
            queue: Pending::new(alloc)?,
            at: 0,
            entered: false,
            drawn: false,
            draws: u64::from(seed) * 64 + u64::from(rank),
            ended: false,
            opened: None,
            log,
            kept: 0,
        })
    }

    /// The number of the first call that does not have all its items; the number of calls where there is none.
    pub fn at(&self) -> u32
        ensures { result ≡ self.now.agent.at }
    {
        self.at
    }

    /// Whether the rank has ended.
    pub fn has_ended(&self) -> bool
        ensures { result ≡ self.now.agent.ended }
    {
        self.ended
    }

    /// The calls of the rank.
    pub(crate) fn calls(&self) -> &'s [Call]
        ensures calls { result.now ≡ calls_at self.now.stage self.now.agent.rank }
        ensures written { AllByRecursion IsWrittenCall result.now }
        ensures few { length result.now ≤ 65536 }
    {
        calls_of(self.script, self.rank)
    }

    /// The first call that does not have all its items.
    pub(crate) fn next_call(&self) -> Option<&'s Call>
        ensures call { option_copied result ≡ next_call_of self.now.stage self.now.agent }
        ensures written { IfSome (next_call_of self.now.stage self.now.agent) IsWrittenCall }
        ensures within { IfSome (next_call_of self.now.stage self.now.agent)
            (λ _. self.now.agent.at < 65536) }
    {
        self.calls().get(self.at as usize)
    }

    /// The class that the rank gives the call by its own tests, or none.
    pub(crate) fn own_class(&self, call: &Call) -> Option<Class>
        requires { IsWrittenCall call.now }
        ensures { result ≡ class_by_rank self.now.agent.known call.now }
    {
        own_class(
            &self.windows,
            &self.epochs,
            &self.queue,
            self.script.ranks,
            call,
        )
    }

    /// Whether a draw is made before the next call begins.
    pub(crate) fn must_draw(&self) -> bool
        ensures { result ≡ must_draw self.now.stage self.now.agent }
    {
        self.is_seeded() && !self.drawn && self.queue.count() != 0
    }

    fn is_seeded(&self) -> bool
        ensures { result ≡ is_seeded self.now.stage.delay }
    {
        match self.delay {
            Delay::None => false,
            Delay::End => false,
            Delay::Seeded => true,
        }
    }

    /// Whether the delivery of a pending access is begun.
    pub(crate) fn is_begun(&self) -> bool
        ensures { result ≡ is_some self.now.opened }
    {
        self.opened.is_some()
    }

    /// The place of the pending access whose delivery is begun; it gives way to none.
    fn opened(&self) -> Option<usize>
        ensures place { result ≡ self.now.opened }
        ensures first { IfSome result (IsFirst self.now.agent.pending) }
    {
        self.opened
    }

    /// Whether the call begins with an entry of the board.
    fn begins_with_entry(&self, call: &Call) -> bool
        requires { IsWrittenCall call.now }
        ensures { result ≡ begins_with_entry self.now.stage self.now.agent call.now }
    {
        !self.must_draw()
            && self.own_class(call).is_none()
            && self.queue.next_for(call).is_none()
            && course_of(&self.windows, call).has_entry()
    }

    /// Whether the next step of the rank tries an entry of the board.
    pub fn needs_board(&self) -> bool
        ensures { result ≡ needs_entry self.now }
    {
        if self.is_begun() {
            return false;
        }
        match self.next_call() {
            None => false,
            Some(call) => {
                if self.entered {
                    !is_transfer(call)
                } else {
                    self.begins_with_entry(call)
                }
            }
        }
    }

    /// A step of the rank at the board: an entry, or the two of a collective call; a refusal by the board; or a false
    /// test (MPI 3.1, section 11.5). It makes no touch.
    ///
    /// A token of `notes` is given with each Arrive, post, complete, unlock and unlock_all; what an entry gains is met.
    /// Where every token tells its front, each token that is given tells the lowest places as they are when the step
    /// begins. A step that refuses the call does nothing else. Where memory runs out, the log keeps all its items and
    /// the board all its entries, behind which only the first of those that the step puts may stand, and no cell is
    /// touched.
    #[tactic(auto, using(crate::proofs::ToldGifts::none_told))]
    pub fn next_board<M: Memory>(
        &mut self,
        notes: &mut M,
        board: &mut Board<M::Note>,
    ) -> Result<Turned, NoMemory>
        requires needs { needs_entry self.old ≡ true }
        requires board { IsBoardOf self.old board.old (M.face notes.old) }
        ensures answer { IfOk result (λ turned. IsBoardAnswer turned
            self.old self.new board.old board.new (M.face notes.old) (M.face notes.new)) }
        ensures refusal { IfOk result (λ _. RefusesAlone self.old self.new) }
        ensures untouched { IfOk result (λ _. WhereRefused self.old self.new
            (board.new ≡ board.old)) }
        ensures gifts { IfOk result (λ _. AlwaysTells M.Note.front →
            AreTold (M.face notes.old) board.old board.new) }
        ensures known { Keeps (M.knows notes.old) (M.knows notes.new) }
        ensures kept { OnErr result (KeepsItems self.old.agent.log self.new.agent.log) }
        ensures home { OnErr result (self.new.home ≡ self.old.home) }
        ensures handed { OnErr result (IsHandedOver (M.face notes.old) (M.face notes.new)) }
        ensures entries { OnErr result (PutsFirst self.old.agent.rank
            (board_step self.old.stage self.old.agent (rows_on board.old)).rows
            board.old board.new) }
    {
        if self.log.free_known() < STEP_ROOM {
            return Ok(Turned::Full);
        }
        match self.next_call() {
            None => unreachable!(),
            Some(call) => {
                let turned = self.try_entry(notes, board, call);
                board.gifts_of_tokens();
                turned
            }
        }
    }

    /// A step of the rank that tries no entry: a draw, a refusal by the rank's own tests, an item of a call, the
    /// delivery of a pending access, or the end (MPI 3.1, sections 11.3, 11.5 and 11.7).
    ///
    /// A step that refuses the call does nothing else. Where memory runs out, the log keeps all its items, and no cell
    /// is touched.
    pub fn next_data<M: Memory>(&mut self, mem: &mut M) -> Result<Turned, NoMemory>
        requires needs { needs_entry self.old ≡ false }
        requires room { HasRoom self.old (M.face mem.old) }
        ensures answer { IfOk result (λ turned. IsDataAnswer turned
            self.old self.new (M.face mem.old) (M.face mem.new) (M.knows mem.new)) }
        ensures refusal { IfOk result (λ _. RefusesAlone self.old self.new) }
        ensures untouched { IfOk result (λ _. WhereRefused self.old self.new
            (M.face mem.new ≡ M.face mem.old)) }
        ensures told { IfOk result (λ turned. is_full turned ≡ false →
            IsWholeStep self.old self.new (M.face mem.old) (M.face mem.new)) }
        ensures told_once { IfOk result (λ turned.
            IfSome (M.face mem.old).told (λ _. is_again turned ≡ false)) }
        ensures known { Keeps (M.knows mem.old) (M.knows mem.new) }
        ensures kept { OnErr result (KeepsItems self.old.agent.log self.new.agent.log) }
        ensures home { OnErr result (self.new.home ≡ self.old.home) }
        ensures unwritten { OnErr result (mem.new ≡ mem.old) }
    {
        if self.log.free_known() < STEP_ROOM {
            return Ok(Turned::Full);
        }
        if self.is_over() {
            self.end()?;
            return Ok(Turned::Ended);
        }
        self.go_on()?;
        match self.opened() {
            None => Ok(Turned::Did),
            Some(at) => {
                if self.deliver(at, mem)? {
                    return Ok(Turned::Did);
                }
                Ok(Turned::Again)
            }
        }
    }

    /// Delivers the first pending access of a rank that waits or has ended. Where memory runs out, the log is as it
    /// was, and no cell is touched.
    pub fn drain<M: Memory>(&mut self, mem: &mut M) -> Result<Turned, NoMemory>
        requires free { 300 ≤ self.old.free }
        requires room { HasRoom self.old (M.face mem.old) }
        ensures answer { IfOk result (λ turned. IsDrainAnswer turned
            self.old self.new (M.face mem.old) (M.face mem.new) (M.knows mem.new)) }
        ensures told { IfOk result (λ _.
            IsWholeDrain self.old self.new (M.face mem.old) (M.face mem.new)) }
        ensures told_once { IfOk result (λ turned.
            IfSome (M.face mem.old).told (λ _. is_again turned ≡ false)) }
        ensures known { Keeps (M.knows mem.old) (M.knows mem.new) }
        ensures kept { OnErr result (self.new.agent.log ≡ self.old.agent.log) }
        ensures home { OnErr result (self.new.home ≡ self.old.home) }
        ensures unwritten { OnErr result (mem.new ≡ mem.old) }
    {
        if self.queue.count() == 0 {
            return Ok(Turned::Ended);
        }
        let at = self.opened.unwrap_or(0);
        if self.deliver(at, mem)? {
            return Ok(Turned::Did);
        }
        Ok(Turned::Again)
    }

    /// What each rank keeps, whatever its steps.
    ///
    /// It is a theorem, and does nothing when it is called.
    pub fn is_sound(&self)
        ensures { IsSound self.now }
    {
        let _ = &self.log;
    }

    /// The log, with all its items.
    pub fn into_log(self) -> L
        ensures kept { L.kept result ≡ self.entry.agent.log }
        ensures free { L.free result ≡ self.entry.free }
        ensures home { L.home result ≡ self.entry.home }
    {
        let Agent {
            script: _,
            layout: _,
            delay: _,
            rank: _,
            windows: _,
            epochs: _,
            queue: _,
            at: _,
            entered: _,
            drawn: _,
            draws: _,
            ended: _,
            opened: _,
            kept: _,
            log,
        } = self;
        log
    }
}

impl<'s> Agent<'s, Log> {
    /// A log in memory always has room for the items of a step: no step answers `Full`.
    ///
    /// It is a theorem, and does nothing when it is called.
    pub fn has_room(&self)
        ensures { self.now.free ≡ 4294967295 }
    {
        let _room = self.log.free_known();
    }
}
