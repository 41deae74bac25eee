//! The steps of a rank at the board: an entry, or the two of a collective call; a refusal; or a false test (MPI 3.1,
//! section 11.5, in this project's profile).
ghost use Rattle.std.specs.Prelude.{◌≡◌, ◌<◌, ◌≤◌, false, true, None, IfOk, OnErr};
ghost use Rattle.cell_face.specs.Faces.{Keeps};
ghost use Rattle.rank_rules.specs.Courses as rules;
ghost use Rattle.rma_record.specs.declared.items.Item.TheVariants.{Tested};
ghost use Rattle.rma_types.specs.declared.accesses.Step.TheVariants.{Arrive as ArriveStep, Leave as LeaveStep};
ghost use Rattle.rma_types.specs.declared.accesses.Step.TheVariants.{One as OneStep};
ghost use Rattle.step_runs.specs.Agents.{end_call, enter_call};
ghost use Rattle.step_runs.specs.BoardSteps.{arrive as arrive_by, enter as enter_by, entry_of, test as test_by};
ghost use Rattle.step_runs.specs.DataSteps.{without_delivery, with_item};
ghost use Rattle.sync_board.specs.Boards.{rows_on};
ghost use Rattle.rank_engine.specs.Entering.{IsClosing, IsHandedOver, IsOpening, IsReady, IsTurn};
ghost use Rattle.rank_engine.specs.KeptItems.{KeepsItems, PutsFirst};
ghost use Rattle.rank_engine.specs.Moves.{IsMove};

use crate::agent::Agent;
use crate::answers::Turned;
use crate::asking::{Answer, ask};
use crate::courses::{Course, course_of};
use crate::learning::learn_windows;
use cell_face::Memory;
use rma_record::{Item, Keep};
use rma_types::{Call, NoMemory, Step};
use sync_board::Board;

impl<'s, L: Keep + Drop> Agent<'s, L> {
    /// A testwin that is false, after so many entries.
    fn keep_tested(&mut self, seen: u32) -> Result<(), NoMemory>
        requires closed { self.old.opened ≡ None }
        requires new { self.old.agent.entered ≡ false }
        requires within { self.old.agent.at < 65536 }
        requires free { 1 ≤ self.old.free }
        ensures moved { IfOk result (λ _. IsMove self.old self.new (without_delivery
            (with_item self.old.stage self.old.agent (Tested self.old.agent.at seen)))) }
        ensures kept { OnErr result (self.new.agent.log ≡ self.old.agent.log) }
        ensures home { OnErr result (self.new.home ≡ self.old.home) }
    {
        if self.kept == u32::MAX {
            return Err(NoMemory);
        }
        self.log.reserve(1)?;
        self.log.keep(Item::Tested {
            call: self.at,
            seen,
        });
        self.kept += 1;
        self.at += 1;
        self.drawn = false;
        Ok(())
    }

    /// The first entry of a call of two parts: an Arrive, or the look-up of a transfer.
    fn open<M: Memory>(
        &mut self,
        notes: &mut M,
        board: &mut Board<M::Note>,
        call: &Call,
        step: Step,
    ) -> Result<Turned, NoMemory>
        requires ready { IsReady self.old call.now board.old (M.face notes.old) }
        requires new { self.old.agent.entered ≡ false }
        requires opens { IsOpening step (rules.course_of self.old.agent.known.windows call.now) }
        ensures turn { IfOk result (λ turned. IsTurn turned 1
            (enter_by self.old.stage self.old.agent (rows_on board.old) call.now step enter_call)
            self.old self.new board.old board.new (M.face notes.old) (M.face notes.new)) }
        ensures known { Keeps (M.knows notes.old) (M.knows notes.new) }
        ensures kept { OnErr result (self.new.agent.log ≡ self.old.agent.log) }
        ensures home { OnErr result (self.new.home ≡ self.old.home) }
        ensures handed { OnErr result (IsHandedOver (M.face notes.old) (M.face notes.new)) }
        ensures unchanged { OnErr result (board.new ≡ board.old) }
    {
        if self.kept == u32::MAX {
            return Err(NoMemory);
        }
        self.log.reserve(1)?;
        match ask(notes, board, self.rank, self.at, call, step)? {
            Answer::Entered { place, made: _ } => {
                self.log.keep(Item::Entry {
                    call: self.at,
                    place,
                    step,
                });
                self.kept += 1;
                self.entered = true;
                Ok(Turned::Did)
            }
            Answer::NotYetEntered => Ok(Turned::NotYet),
            Answer::Refused { class, seen } => {
                self.refuse(class, seen)?;
                Ok(Turned::Did)
            }
        }
    }

    /// The entry that ends a call: the Leave of a collective call, or the one entry of any other.
    #[tactic(auto, using(crate::proofs::KeptEntries::puts_none))]
    fn close<M: Memory>(
        &mut self,
        notes: &mut M,
        board: &mut Board<M::Note>,
        call: &Call,
        step: Step,
    ) -> Result<Turned, NoMemory>
        requires ready { IsReady self.old call.now board.old (M.face notes.old) }
        requires closes { IsClosing step self.old.agent.entered
            (rules.course_of self.old.agent.known.windows call.now) }
        ensures turn { IfOk result (λ turned. IsTurn turned 1
            (enter_by self.old.stage self.old.agent (rows_on board.old) call.now step end_call)
            self.old self.new board.old board.new (M.face notes.old) (M.face notes.new)) }
        ensures known { Keeps (M.knows notes.old) (M.knows notes.new) }
        ensures kept { OnErr result (self.new.agent.log ≡ self.old.agent.log) }
        ensures home { OnErr result (self.new.home ≡ self.old.home) }
        ensures handed { OnErr result (IsHandedOver (M.face notes.old) (M.face notes.new)) }
        ensures entries { OnErr result (PutsFirst self.old.agent.rank
            (enter_by self.old.stage self.old.agent (rows_on board.old) call.now step end_call).rows
            board.old board.new) }
    {
        if self.kept == u32::MAX {
            return Err(NoMemory);
        }
        self.log.reserve(1)?;
        match ask(notes, board, self.rank, self.at, call, step)? {
            Answer::Entered { place, made } => {
                learn_windows(&mut self.windows, call, made)?;
                self.epochs.after(call);
                self.log.keep(Item::Entry {
                    call: self.at,
                    place,
                    step,
                });
                self.kept += 1;
                self.at += 1;
                self.entered = false;
                self.drawn = false;
                Ok(Turned::Did)
            }
            Answer::NotYetEntered => Ok(Turned::NotYet),
            Answer::Refused { class, seen } => {
                self.refuse(class, seen)?;
                Ok(Turned::Did)
            }
        }
    }

    /// A testwin: its entry, or that it is false.
    #[tactic(auto, using(crate::proofs::KeptEntries::puts_none))]
    fn test<M: Memory>(
        &mut self,
        notes: &mut M,
        board: &mut Board<M::Note>,
        call: &Call,
    ) -> Result<Turned, NoMemory>
        requires ready { IsReady self.old call.now board.old (M.face notes.old) }
        requires free { 2 ≤ self.old.free }
        requires new { self.old.agent.entered ≡ false }
        requires course { rules.course_of self.old.agent.known.windows call.now ≡
            rules.EntryOrTested }
        ensures turn { IfOk result (λ turned. IsTurn turned 2
            (test_by self.old.stage self.old.agent (rows_on board.old) call.now)
            self.old self.new board.old board.new (M.face notes.old) (M.face notes.new)) }
        ensures known { Keeps (M.knows notes.old) (M.knows notes.new) }
        ensures kept { OnErr result (self.new.agent.log ≡ self.old.agent.log) }
        ensures home { OnErr result (self.new.home ≡ self.old.home) }
        ensures handed { OnErr result (IsHandedOver (M.face notes.old) (M.face notes.new)) }
        ensures entries { OnErr result (PutsFirst self.old.agent.rank
            (test_by self.old.stage self.old.agent (rows_on board.old) call.now).rows
            board.old board.new) }
    {
        match self.close(notes, board, call, Step::One)? {
            Turned::NotYet => match u32::try_from(board.entries().len()) {
                Ok(seen) => {
                    self.keep_tested(seen)?;
                    Ok(Turned::Did)
                }
                Err(_) => Err(NoMemory),
            },
            Turned::Did => Ok(Turned::Did),
            Turned::Again | Turned::Full | Turned::Ended => unreachable!(),
        }
    }

    /// A collective call: its Arrive, and where that is put its Leave.
    #[tactic(auto, using(crate::proofs::KeptEntries::puts_none))]
    fn arrive<M: Memory>(
        &mut self,
        notes: &mut M,
        board: &mut Board<M::Note>,
        call: &Call,
    ) -> Result<Turned, NoMemory>
        requires ready { IsReady self.old call.now board.old (M.face notes.old) }
        requires free { 2 ≤ self.old.free }
        requires new { self.old.agent.entered ≡ false }
        requires course { rules.course_of self.old.agent.known.windows call.now ≡
            rules.ArriveAndLeave }
        ensures turn { IfOk result (λ turned. IsTurn turned 2
            (arrive_by self.old.stage self.old.agent (rows_on board.old) call.now)
            self.old self.new board.old board.new (M.face notes.old) (M.face notes.new)) }
        ensures known { Keeps (M.knows notes.old) (M.knows notes.new) }
        ensures kept { OnErr result (KeepsItems self.old.agent.log self.new.agent.log) }
        ensures home { OnErr result (self.new.home ≡ self.old.home) }
        ensures handed { OnErr result (IsHandedOver (M.face notes.old) (M.face notes.new)) }
        ensures entries { OnErr result (PutsFirst self.old.agent.rank
            (arrive_by self.old.stage self.old.agent (rows_on board.old) call.now).rows
            board.old board.new) }
    {
        let arrived = self.open(notes, board, call, Step::Arrive)?;
        if !self.entered {
            return Ok(arrived);
        }
        self.close(notes, board, call, Step::Leave)
    }

    /// The next entry of a call that is begun, or the first of one that begins.
    pub(crate) fn try_entry<M: Memory>(
        &mut self,
        notes: &mut M,
        board: &mut Board<M::Note>,
        call: &Call,
    ) -> Result<Turned, NoMemory>
        requires ready { IsReady self.old call.now board.old (M.face notes.old) }
        requires free { 2 ≤ self.old.free }
        requires begun { self.old.agent.entered ≡ true →
            rules.course_of self.old.agent.known.windows call.now ≡ rules.ArriveAndLeave }
        requires entry { rules.has_entry (rules.course_of self.old.agent.known.windows call.now) ≡
            true }
        ensures turn { IfOk result (λ turned. IsTurn turned 2
            (entry_of self.old.stage self.old.agent (rows_on board.old) call.now)
            self.old self.new board.old board.new (M.face notes.old) (M.face notes.new)) }
        ensures known { Keeps (M.knows notes.old) (M.knows notes.new) }
        ensures kept { OnErr result (KeepsItems self.old.agent.log self.new.agent.log) }
        ensures home { OnErr result (self.new.home ≡ self.old.home) }
        ensures handed { OnErr result (IsHandedOver (M.face notes.old) (M.face notes.new)) }
        ensures entries { OnErr result (PutsFirst self.old.agent.rank
            (entry_of self.old.stage self.old.agent (rows_on board.old) call.now).rows
            board.old board.new) }
    {
        if self.entered {
            return self.close(notes, board, call, Step::Leave);
        }
        match course_of(&self.windows, call) {
            Course::LookUpAndIssue => self.open(notes, board, call, Step::One),
            Course::ArriveAndLeave => self.arrive(notes, board, call),
            Course::EntryOrTested => self.test(notes, board, call),
            Course::OneEntry => self.close(notes, board, call, Step::One),
            Course::Null | Course::Issue | Course::Flush | Course::Request => unreachable!(),
        }
    }
}
