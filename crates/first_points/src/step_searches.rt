//! Searches among the steps of all ranks, by tables of the steps that accesses may look for.
ghost use Rattle.std.specs.Prelude.{◌≡◌, nat_lt, slice_get, ◌++◌, ◌∷◌, [], IfOk, OnOk};
ghost use Rattle.std.specs.List.{filter, find};
ghost use Rattle.rank_records.specs.declared.kept.KeptStep.{KeptStep as StepValue};
ghost use Rattle.vector_clocks.specs.Marks.{before_in};
ghost use Rattle.first_points.specs.Alike.{reaches};
ghost use Rattle.first_points.specs.KeptPoints.{AllAscending, AreAscending, kept_steps};
ghost use Rattle.first_points.specs.KeptPoints.{first_after as after_of, first_end as end_of};
ghost use Rattle.first_points.specs.KeptPoints.{first_reached as reached_of};
ghost use Rattle.first_points.specs.Keys.{earlier_of, has_key};
ghost use Rattle.first_points.specs.Tables.{HasItsSteps, HaveTheirSteps, searched, table_for};

use crate::keys::{Aim, StepKey};
use crate::searches::{Sought, steps_unreached, steps_within};
use crate::step_tables::{steps_for, table_of};
use rank_records::{KeptAccess, KeptStep, RankRecord};
use rma_types::{Id, Items, NoMemory, Script};
use std::alloc::Global;
use std::collections::HashMap;
use vector_clocks::Clocks;

/// What is kept of a rank, and a table of its steps for each thing that is looked for.
#[derive(Drop)]
pub(crate) struct RankTables<'r> {
    pub(crate) kept: &'r RankRecord,
    pub(crate) fence_arrivals: HashMap<StepKey, Items<KeptStep>>,
    pub(crate) completes: HashMap<StepKey, Items<KeptStep>>,
    pub(crate) waits: HashMap<StepKey, Items<KeptStep>>,
    pub(crate) done_at_target: HashMap<StepKey, Items<KeptStep>>,
    pub(crate) done_at_origin: HashMap<StepKey, Items<KeptStep>>,
    pub(crate) taking_in: HashMap<StepKey, Items<KeptStep>>,
    pub(crate) giving_out: HashMap<StepKey, Items<KeptStep>>,
    pub(crate) request_ends: HashMap<StepKey, Items<KeptStep>>,
}

/// The tables of all ranks of the run of a script.
#[derive(Drop)]
pub(crate) struct StepSearches<'r> {
    pub(crate) script: &'r Script,
    pub(crate) ranks: Vec<RankTables<'r>>,
}

fn table_at<'t>(rank: &'t RankTables, aim: Aim) -> &'t HashMap<StepKey, Items<KeptStep>>
    ensures { result.now ≡ table_for rank.now aim }
{
    match aim {
        Aim::Window(Sought::FenceArrival) => &rank.fence_arrivals,
        Aim::Window(Sought::Complete) => &rank.completes,
        Aim::Window(Sought::Wait) => &rank.waits,
        Aim::Window(Sought::AtTarget) => &rank.done_at_target,
        Aim::Window(Sought::AtOrigin) => &rank.done_at_origin,
        Aim::Window(Sought::TakingIn) => &rank.taking_in,
        Aim::Window(Sought::GivingOut) => &rank.giving_out,
        Aim::Request => &rank.request_ends,
    }
}

/// The tables of a rank, by one walk over its steps for each.
fn tables_of<'r>(
    alloc: Global,
    script: &Script,
    kept: &'r RankRecord,
) -> Result<RankTables<'r>, NoMemory>
    requires { AreAscending kept.now.steps }
    ensures steps { IfOk result (λ rank. HasItsSteps script.now rank) }
    ensures kept { IfOk result (λ rank. rank.kept.now ≡ kept.now) }
{
    let steps = kept.steps.as_slice();
    Ok(RankTables {
        kept,
        fence_arrivals: table_of(alloc, script, Aim::Window(Sought::FenceArrival), steps)?,
        completes: table_of(alloc, script, Aim::Window(Sought::Complete), steps)?,
        waits: table_of(alloc, script, Aim::Window(Sought::Wait), steps)?,
        done_at_target: table_of(alloc, script, Aim::Window(Sought::AtTarget), steps)?,
        done_at_origin: table_of(alloc, script, Aim::Window(Sought::AtOrigin), steps)?,
        taking_in: table_of(alloc, script, Aim::Window(Sought::TakingIn), steps)?,
        giving_out: table_of(alloc, script, Aim::Window(Sought::GivingOut), steps)?,
        request_ends: table_of(alloc, script, Aim::Request, steps)?,
    })
}

fn step_at(steps: &[KeptStep], at: usize) -> Option<KeptStep>
    ensures { result ≡ slice_get steps.now at }
{
    match steps.get(at) {
        Some(step) => Some(*step),
        None => None,
    }
}

/// The first of some steps after an index.
fn first_past(steps: &[KeptStep], index: u32) -> Option<KeptStep>
    requires { AreAscending steps.now }
    ensures { result ≡ find (λ (k : StepValue). nat_lt index k.id.index) steps.now }
{
    step_at(steps, steps_within(steps, index))
}

/// The first of some steps which one of the points is before.
fn first_beyond(clocks: &Clocks, points: &[Id], steps: &[KeptStep]) -> Option<KeptStep>
    requires { AreAscending steps.now }
    ensures { result ≡
        find (λ (k : StepValue). reaches (before_in clocks.now) points.now k.id) steps.now }
{
    step_at(steps, steps_unreached(clocks, points, steps))
}

/// The earlier of two steps of a log, where there are two.
fn earlier(a: Option<KeptStep>, b: Option<KeptStep>) -> Option<KeptStep>
    ensures { result ≡ earlier_of a b }
{
    match (a, b) {
        (Some(x), Some(y)) => {
            if y.id.index < x.id.index {
                Some(y)
            } else {
                Some(x)
            }
        }
        (Some(x), None) => Some(x),
        (None, b) => b,
    }
}

/// The tables of one rank more, behind the others.
fn push_rank<'r>(ranks: &mut Vec<RankTables<'r>>, rank: RankTables<'r>) -> Result<(), NoMemory>
    ensures { OnOk result (ranks.new.items ≡ ranks.old.items ++ rank.entry ∷ []) }
{
    if ranks.push(rank).is_err() {
        return Err(NoMemory);
    }
    Ok(())
}

/// The tables of one rank more.
fn put_rank<'r>(
    alloc: Global,
    searches: &mut StepSearches<'r>,
    kept: &'r RankRecord,
) -> Result<(), NoMemory>
    requires steps { HaveTheirSteps searches.old }
    requires order { AreAscending kept.now.steps }
    ensures steps { OnOk result (HaveTheirSteps searches.new) }
    ensures records { OnOk result (searched searches.new ≡ searched searches.old ++ kept.now ∷ []) }
    ensures script { searches.new.script ≡ searches.old.script }
{
    let rank = tables_of(alloc, searches.script, kept)?;
    push_rank(&mut searches.ranks, rank)?;
    Ok(())
}

/// The tables of all ranks.
pub(crate) fn searches_of<'r>(
    alloc: Global,
    script: &'r Script,
    records: &'r [RankRecord],
) -> Result<StepSearches<'r>, NoMemory>
    requires { AllAscending records.now }
    ensures steps { IfOk result (λ searches. HaveTheirSteps searches) }
    ensures records { IfOk result (λ searches. searched searches ≡ records.now) }
    ensures script { IfOk result (λ searches. searches.script.now ≡ script.now) }
{
    let mut searches = StepSearches {
        script,
        ranks: Vec::new(alloc),
    };
    for kept in records {
        put_rank(alloc, &mut searches, kept)?;
    }
    Ok(searches)
}

impl StepSearches<'_> {
    /// The steps of a rank with a key, in the order of its log.
    fn steps_with(&self, rank: u8, aim: Aim, key: StepKey) -> &[KeptStep]
        requires { HaveTheirSteps self.now }
        ensures steps { result.now ≡
            filter (has_key self.now.script.now aim key) (kept_steps (searched self.now) rank) }
        ensures order { AreAscending result.now }
    {
        match self.ranks.get(rank as usize) {
            Some(rank) => steps_for(table_at(rank, aim), key),
            None => &[],
        }
    }

    /// The first step of the origin after the access that is what is looked for on its window.
    pub(crate) fn first_after(&self, sought: Sought, access: &KeptAccess) -> Option<KeptStep>
        requires { HaveTheirSteps self.now }
        ensures { result ≡ after_of self.now.script.now (searched self.now) sought access.now }
    {
        let (rank, aim) = (access.id.rank, Aim::Window(sought));
        let window = access.access.window;
        let target = u32::from(access.access.target);
        let all = self.steps_with(rank, aim, StepKey::OnWindow { window });
        let some = self.steps_with(rank, aim, StepKey::Towards { window, target });
        earlier(
            first_past(all, access.id.index),
            first_past(some, access.id.index),
        )
    }

    /// The first step of the origin after the access that ends its request.
    pub(crate) fn first_end(&self, access: &KeptAccess) -> Option<KeptStep>
        requires { HaveTheirSteps self.now }
        ensures { result ≡ end_of (searched self.now) access.now }
    {
        let key = StepKey::OfCall {
            number: access.call,
        };
        first_past(
            self.steps_with(access.id.rank, Aim::Request, key),
            access.id.index,
        )
    }

    /// The first step of the target, on the window of the access, which one of the points is before and that is what is
    /// looked for.
    pub(crate) fn first_reached(
        &self,
        clocks: &Clocks,
        points: &[Id],
        sought: Sought,
        access: &KeptAccess,
    ) -> Option<KeptStep>
        requires { HaveTheirSteps self.now }
        ensures { result ≡ reached_of self.now.script.now (searched self.now) (before_in clocks.now)
            points.now sought access.now }
    {
        let (rank, aim) = (access.access.target, Aim::Window(sought));
        let window = access.access.window;
        let target = u32::from(access.access.target);
        let all = self.steps_with(rank, aim, StepKey::OnWindow { window });
        let some = self.steps_with(rank, aim, StepKey::Towards { window, target });
        earlier(
            first_beyond(clocks, points, all),
            first_beyond(clocks, points, some),
        )
    }
}
