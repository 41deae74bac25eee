//! What a rank does by itself: a draw, a refusal by its own tests, and the items of calls without an entry (MPI 3.1,
//! sections 11.3, 11.5 and 11.7).
ghost use Rattle.std.specs.Prelude.{◌≡◌, ◌⊎◌, ◌+◌, ◌<◌, ◌≤◌, false, true, Some, None, IfSome, IfOk, OnErr};
ghost use Rattle.std.specs.Option.{option_map_or};
ghost use Rattle.rma_types.specs.Actions.{transfer_of};
ghost use Rattle.call_rules.specs.WellFormed.{IsWrittenCall};
ghost use Rattle.lawful_runs.specs.Stages.{calls_at};
ghost use Rattle.rank_rules.specs.Courses as courses;
ghost use Rattle.rank_rules.specs.Knowledge.{own_class as class_by_rank};
ghost use Rattle.rma_record.specs.declared.items.Item.TheVariants.{Refused, Null, Flush, Request};
ghost use Rattle.step_runs.specs.Agents.{next_call as next_call_of, must_draw as must_it_draw};
ghost use Rattle.step_runs.specs.DataSteps.{without_delivery, with_item};
ghost use Rattle.step_runs.specs.DataSteps.{draw as draw_of, issue as issue_by, begin as begin_by};
ghost use Rattle.step_runs.specs.DataSteps.{first_item as first_item_by};
ghost use Rattle.step_runs.specs.Generator.{next_state};
ghost use Rattle.rank_engine.specs.Moves.{IsFirst, IsIssued, IsMove, place_now as place_now_of};
ghost use Rattle.rank_engine.specs.RankStates.{needs_entry, own_move};
ghost use Rattle.rank_engine.specs.DataAnswers.{is_over};
ghost use Rattle.rank_engine.specs.Sound.{IsLookedUp};

use crate::agent::Agent;
use crate::courses::{Course, course_of, does_fetch, is_touched_now, request_ended, request_of};
use rma_record::{Item, Keep};
use rma_types::{Access, Call, Class, Kind, NoMemory};

/// A transfer that reaches nothing.
const NOTHING: Access = Access {
    window: 0,
    target: 0,
    lo: 0,
    len: 0,
    kind: Kind::Get,
};

/// The state of the generator after a draw.
fn stir(state: u64) -> u64
    ensures { result ≡ next_state state }
{
    state
        .wrapping_mul(6364136223846793005)
        .wrapping_add(1442695040888963407)
}

impl<'s, L: Keep + Drop> Agent<'s, L> {
    /// The rank refuses its next call, before its first entry.
    pub(crate) fn refuse(&mut self, class: Class, seen: u32) -> Result<(), NoMemory>
        requires closed { self.old.opened ≡ None }
        requires new { self.old.agent.entered ≡ false }
        requires within { self.old.agent.at < 65536 }
        requires free { 1 ≤ self.old.free }
        ensures moved { IfOk result (λ _. IsMove self.old self.new (without_delivery
            (with_item self.old.stage self.old.agent (Refused self.old.agent.at class seen)))) }
        ensures kept { OnErr result (self.new.agent.log ≡ self.old.agent.log) }
        ensures home { OnErr result (self.new.home ≡ self.old.home) }
    {
        if self.kept == u32::MAX {
            return Err(NoMemory);
        }
        self.log.reserve(1)?;
        self.log.keep(Item::Refused {
            call: self.at,
            class,
            seen,
        });
        self.kept += 1;
        self.at += 1;
        self.drawn = false;
        Ok(())
    }

    /// The delivery of a pending access, which gives way to none, is begun.
    fn begin_delivery(&mut self, at: usize)
        requires first { IsFirst self.old.agent.pending at }
        requires closed { self.old.opened ≡ None }
        ensures { self.new ≡ record self.old { opened = Some at } }
    {
        self.opened = Some(at);
    }

    /// A draw for the call that begins: an odd one names a pending access, which is then delivered.
    fn draw(&mut self)
        requires draws { must_it_draw self.old.stage self.old.agent ≡ true }
        requires closed { self.old.opened ≡ None }
        ensures { IsMove self.old self.new (draw_of self.old.agent) }
    {
        let count = self.queue.count();
        self.draws = stir(self.draws);
        self.drawn = true;
        let number = self.draws >> 33;
        if number % 2 == 1 {
            let at = self.queue.way((number / 2) as usize % count);
            self.begin_delivery(at);
        }
    }

    /// A call whose target is MPI_PROC_NULL.
    fn end_null(&mut self, call: &Call) -> Result<(), NoMemory>
        requires call { next_call_of self.old.stage self.old.agent ≡ Some call.now }
        requires within { self.old.agent.at < 65536 }
        requires written { IsWrittenCall call.now }
        requires closed { self.old.opened ≡ None }
        requires new { self.old.agent.entered ≡ false }
        requires passed { class_by_rank self.old.agent.known call.now ≡ None }
        requires course { courses.course_of self.old.agent.known.windows call.now ≡
            courses.OneNull }
        requires free { 1 ≤ self.old.free }
        ensures moved { IfOk result (λ _. IsMove self.old self.new (without_delivery
            (with_item self.old.stage self.old.agent (Null self.old.agent.at)))) }
        ensures kept { OnErr result (self.new.agent.log ≡ self.old.agent.log) }
        ensures home { OnErr result (self.new.home ≡ self.old.home) }
    {
        if self.kept == u32::MAX {
            return Err(NoMemory);
        }
        self.log.reserve(1)?;
        self.queue
            .issue(self.at, self.kept, &NOTHING, false, request_of(call))?;
        self.epochs.after(call);
        self.log.keep(Item::Null { call: self.at });
        self.kept += 1;
        self.at += 1;
        self.drawn = false;
        Ok(())
    }

    /// A flush or a sync, all of whose accesses are done.
    fn end_flush(&mut self, call: &Call) -> Result<(), NoMemory>
        requires call { next_call_of self.old.stage self.old.agent ≡ Some call.now }
        requires within { self.old.agent.at < 65536 }
        requires written { IsWrittenCall call.now }
        requires closed { self.old.opened ≡ None }
        requires new { self.old.agent.entered ≡ false }
        requires passed { class_by_rank self.old.agent.known call.now ≡ None }
        requires course { courses.course_of self.old.agent.known.windows call.now ≡
            courses.OneFlush }
        requires free { 1 ≤ self.old.free }
        ensures moved { IfOk result (λ _. IsMove self.old self.new (without_delivery
            (with_item self.old.stage self.old.agent (Flush self.old.agent.at)))) }
        ensures kept { OnErr result (self.new.agent.log ≡ self.old.agent.log) }
        ensures home { OnErr result (self.new.home ≡ self.old.home) }
    {
        if self.kept == u32::MAX {
            return Err(NoMemory);
        }
        self.log.reserve(1)?;
        self.epochs.after(call);
        self.log.keep(Item::Flush { call: self.at });
        self.kept += 1;
        self.at += 1;
        self.drawn = false;
        Ok(())
    }

    /// A waitreq or a testreq, whose access is done.
    #[tactic(auto, using(crate::proofs::EndedRequests::ended_knows))]
    fn end_request(&mut self, call: &Call) -> Result<(), NoMemory>
        requires call { next_call_of self.old.stage self.old.agent ≡ Some call.now }
        requires within { self.old.agent.at < 65536 }
        requires written { IsWrittenCall call.now }
        requires closed { self.old.opened ≡ None }
        requires new { self.old.agent.entered ≡ false }
        requires passed { class_by_rank self.old.agent.known call.now ≡ None }
        requires course { courses.course_of self.old.agent.known.windows call.now ≡
            courses.OneRequest }
        requires free { 1 ≤ self.old.free }
        ensures moved { IfOk result (λ _. IsMove self.old self.new (without_delivery
            (with_item self.old.stage self.old.agent (Request self.old.agent.at)))) }
        ensures kept { OnErr result (self.new.agent.log ≡ self.old.agent.log) }
        ensures home { OnErr result (self.new.home ≡ self.old.home) }
    {
        if self.kept == u32::MAX {
            return Err(NoMemory);
        }
        match request_ended(call) {
            None => unreachable!(),
            Some(req) => {
                self.log.reserve(1)?;
                self.queue.end_request(req);
                self.log.keep(Item::Request { call: self.at });
                self.kept += 1;
                self.at += 1;
                self.drawn = false;
                Ok(())
            }
        }
    }

    /// The place at which the access will be pending, where it is touched in the step of its Issue.
    fn place_now(&self, access: &Access) -> Option<usize>
        ensures { result ≡ place_now_of self.now access.now }
    {
        if is_touched_now(self.delay, access) {
            Some(self.queue.count())
        } else {
            None
        }
    }

    /// The Issue of the access of a call; the delivery of one that is touched at once is begun.
    #[tactic(auto, using(crate::proofs::Issued::issue_is))]
    fn put_issue(&mut self, call: &Call, access: Access) -> Result<(), NoMemory>
        requires call { next_call_of self.old.stage self.old.agent ≡ Some call.now }
        requires within { self.old.agent.at < 65536 }
        requires written { IsWrittenCall call.now }
        requires closed { self.old.opened ≡ None }
        requires passed { class_by_rank self.old.agent.known call.now ≡ None }
        requires access { courses.access_of self.old.agent.known.windows call.now ≡ Some access }
        requires lies { IfSome (transfer_of call.now)
            (IsLookedUp self.old.stage.layout self.old.agent.known.windows) }
        requires free { 1 ≤ self.old.free }
        ensures issued { IfOk result (λ _. IsIssued self.old self.new call.now access) }
        ensures kept { OnErr result (self.new.agent.log ≡ self.old.agent.log) }
        ensures home { OnErr result (self.new.home ≡ self.old.home) }
    {
        if self.kept == u32::MAX {
            return Err(NoMemory);
        }
        let opened = self.place_now(&access);
        self.log.reserve(1)?;
        self.queue.issue(
            self.at,
            self.kept,
            &access,
            does_fetch(call),
            request_of(call),
        )?;
        self.epochs.after(call);
        self.log.keep(Item::Issue {
            call: self.at,
            access,
        });
        self.kept += 1;
        self.at += 1;
        self.entered = false;
        self.drawn = false;
        self.opened = opened;
        Ok(())
    }

    /// The Issue of an access.
    fn issue(&mut self, call: &Call) -> Result<(), NoMemory>
        requires call { next_call_of self.old.stage self.old.agent ≡ Some call.now }
        requires within { self.old.agent.at < 65536 }
        requires written { IsWrittenCall call.now }
        requires closed { self.old.opened ≡ None }
        requires passed { class_by_rank self.old.agent.known call.now ≡ None }
        requires course { (courses.course_of self.old.agent.known.windows call.now ≡
            courses.OneIssue)
            ⊎ (courses.course_of self.old.agent.known.windows call.now ≡ courses.LookUpAndIssue) }
        requires lies { IfSome (transfer_of call.now)
            (IsLookedUp self.old.stage.layout self.old.agent.known.windows) }
        requires free { 1 ≤ self.old.free }
        ensures moved { IfOk result (λ _. IsMove self.old self.new
            (issue_by self.old.stage self.old.agent call.now)) }
        ensures kept { OnErr result (self.new.agent.log ≡ self.old.agent.log) }
        ensures home { OnErr result (self.new.home ≡ self.old.home) }
    {
        match self.windows.access(call) {
            None => Ok(()),
            Some(access) => self.put_issue(call, access),
        }
    }

    /// The item of a call that the rank does not refuse, and that waits for no access.
    fn first_item(&mut self, call: &Call) -> Result<(), NoMemory>
        requires call { next_call_of self.old.stage self.old.agent ≡ Some call.now }
        requires within { self.old.agent.at < 65536 }
        requires written { IsWrittenCall call.now }
        requires closed { self.old.opened ≡ None }
        requires new { self.old.agent.entered ≡ false }
        requires passed { class_by_rank self.old.agent.known call.now ≡ None }
        requires free { 1 ≤ self.old.free }
        ensures moved { IfOk result (λ _. IsMove self.old self.new (first_item_by
            (courses.course_of self.old.agent.known.windows call.now)
            self.old.stage self.old.agent call.now)) }
        ensures kept { OnErr result (self.new.agent.log ≡ self.old.agent.log) }
        ensures home { OnErr result (self.new.home ≡ self.old.home) }
    {
        match course_of(&self.windows, call) {
            Course::Null => self.end_null(call),
            Course::Flush => self.end_flush(call),
            Course::Request => self.end_request(call),
            Course::Issue => self.issue(call),
            Course::LookUpAndIssue
            | Course::ArriveAndLeave
            | Course::EntryOrTested
            | Course::OneEntry => Ok(()),
        }
    }

    /// A call begins: with a draw, a refusal, an access that it must wait for, or its item.
    fn begin(&mut self, call: &Call) -> Result<(), NoMemory>
        requires call { next_call_of self.old.stage self.old.agent ≡ Some call.now }
        requires closed { self.old.opened ≡ None }
        requires new { self.old.agent.entered ≡ false }
        requires within { self.old.agent.at < 65536 }
        requires written { IsWrittenCall call.now }
        requires free { 1 ≤ self.old.free }
        ensures moved { IfOk result (λ _. IsMove self.old self.new
            (begin_by self.old.stage self.old.agent call.now)) }
        ensures kept { OnErr result (self.new.agent.log ≡ self.old.agent.log) }
        ensures home { OnErr result (self.new.home ≡ self.old.home) }
    {
        if self.must_draw() {
            self.draw();
            return Ok(());
        }
        match self.own_class(call) {
            Some(class) => self.refuse(class, 0),
            None => match self.queue.next_for(call) {
                Some(place) => {
                    self.begin_delivery(place);
                    Ok(())
                }
                None => self.first_item(call),
            },
        }
    }

    /// What the rank does by itself; where an access is then delivered, its delivery is begun. Some call is left, or
    /// something is pending.
    pub(crate) fn go_on(&mut self) -> Result<(), NoMemory>
        requires needs { needs_entry self.old ≡ false }
        requires left { is_over self.old ≡ false }
        requires free { 1 ≤ self.old.free }
        ensures moved { IfOk result (λ _. IsMove self.old self.new (own_move self.old)) }
        ensures kept { OnErr result (self.new.agent.log ≡ self.old.agent.log) }
        ensures home { OnErr result (self.new.home ≡ self.old.home) }
    {
        if self.is_begun() {
            return Ok(());
        }
        match self.next_call() {
            None => {
                self.begin_delivery(0);
                Ok(())
            }
            Some(call) => {
                if self.entered {
                    self.issue(call)
                } else {
                    self.begin(call)
                }
            }
        }
    }
}
