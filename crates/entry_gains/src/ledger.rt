//! What all ranks have done, as far as gains need it.
use crate::deeds::{Deed, Reach};
use crate::plans::Plan;
use crate::slots::{Meeting, Slot};
use crate::tables::{
    LockKey, RoundKey, Side, SideKey, StartKey, arrive, begun, hold_all, kinds_held, ordinals,
    ordinals_after, put_ordinals, put_side, release_all, side_of,
};
use rma_types::{Lock, NoMemory, Step};
use std::alloc::Global;
use std::collections::HashMap;

/// The tables of all ranks.
#[derive(Drop)]
pub(crate) struct Ledger {
    pub(crate) rounds: HashMap<RoundKey, u32>,
    pub(crate) sides: HashMap<SideKey, Side>,
    pub(crate) started: HashMap<StartKey, [u32; 16]>,
    pub(crate) held: HashMap<LockKey, Lock>,
}

impl Ledger {
    ghost use Rattle.std.specs.Prelude.{◌≡◌, ◌<◌, ℕ, [], OnOk};
    ghost use Rattle.entry_gains.specs.Ledgers.{Adds, AddsComplete, AddsPost, AddsStart, Arrives, HasRoom, HasTables};
    ghost use Rattle.entry_gains.specs.Ledgers.{Stays, deed_arrived, deed_given, deed_left, deed_read, step_given};
    ghost use Rattle.entry_gains.specs.Ledgers.{step_read};
    ghost use Rattle.entry_gains.specs.Plans.{plan_slot};
    ghost use Rattle.entry_gains.specs.declared.deeds.Deed.TheVariants.{Completes, Meets, Posts, Starts, Unlocks};
    ghost use Rattle.entry_gains.specs.declared.deeds.Deed.TheVariants.{Waits};

    /// No entry.
    pub(crate) fn new(alloc: Global) -> Ledger
        ensures { (ranks : ℕ) → HasTables ranks [] result }
    {
        Ledger {
            rounds: HashMap::new(alloc),
            sides: HashMap::new(alloc),
            started: HashMap::new(alloc),
            held: HashMap::new(alloc),
        }
    }

    /// Takes the memory for one entry more.
    pub(crate) fn reserve(&mut self) -> Result<(), NoMemory>
        ensures room { OnOk result (HasRoom self.new) }
        ensures stays { Stays self.old self.new }
    {
        self.rounds.reserve(1).map_err(|_| NoMemory)?;
        self.sides.reserve(1).map_err(|_| NoMemory)?;
        self.started.reserve(1).map_err(|_| NoMemory)?;
        self.held.reserve(16).map_err(|_| NoMemory)?;
        Ok(())
    }

    /// The slots that a post fills.
    fn post_plan(&self, key: SideKey, named: [bool; 16]) -> Plan
        ensures { (at : ℕ) → at < 32 →
            plan_slot result at ≡ deed_given self.now key.window key.rank (Posts named) at }
    {
        let side = side_of(&self.sides, key);
        let numbers = side.posted_to;
        Plan::Posts {
            window: key.window,
            from: key.rank,
            named,
            numbers,
        }
    }

    /// The slots that a complete fills.
    fn complete_plan(&self, key: SideKey) -> Plan
        ensures { (at : ℕ) → at < 32 →
            plan_slot result at ≡ deed_given self.now key.window key.rank Completes at }
    {
        let side = side_of(&self.sides, key);
        let start = StartKey {
            window: key.window,
            rank: key.rank,
            number: side.completes,
        };
        let numbers = ordinals(&self.started, start);
        Plan::Completes {
            window: key.window,
            from: key.rank,
            numbers,
        }
    }

    /// The slots that an unlock fills.
    fn unlock_plan(&self, key: SideKey, reach: Reach) -> Plan
        ensures { (at : ℕ) → at < 32 →
            plan_slot result at ≡ deed_given self.now key.window key.rank (Unlocks reach) at }
    {
        let held = kinds_held(&self.held, key, reach);
        Plan::Unlocks {
            window: key.window,
            held,
        }
    }

    /// The slots from which a start gains.
    fn start_plan(&self, key: SideKey, named: [bool; 16]) -> Plan
        ensures { (at : ℕ) → at < 32 →
            plan_slot result at ≡ deed_read self.now key.window key.rank (Starts named) at }
    {
        let side = side_of(&self.sides, key);
        let numbers = side.started_to;
        Plan::Starts {
            window: key.window,
            to: key.rank,
            named,
            numbers,
        }
    }

    /// The slots from which a wait gains.
    fn wait_plan(&self, key: SideKey) -> Plan
        ensures { (at : ℕ) → at < 32 →
            plan_slot result at ≡ deed_read self.now key.window key.rank Waits at }
    {
        let side = side_of(&self.sides, key);
        let named = side.last_post;
        let numbers = side.posted_to;
        Plan::Waits {
            window: key.window,
            to: key.rank,
            named,
            numbers,
        }
    }

    /// The slots that an entry of step One fills.
    fn one_plan(&self, key: SideKey, deed: Deed) -> Plan
        ensures { (at : ℕ) → at < 32 →
            plan_slot result at ≡ deed_given self.now key.window key.rank deed at }
    {
        match deed {
            Deed::Nothing => Plan::Nothing,
            Deed::Meets(_) => Plan::Nothing,
            Deed::Posts(named) => self.post_plan(key, named),
            Deed::Starts(_) => Plan::Nothing,
            Deed::Completes => self.complete_plan(key),
            Deed::Waits => Plan::Nothing,
            Deed::Locks { .. } => Plan::Nothing,
            Deed::Unlocks { reach } => self.unlock_plan(key, reach),
        }
    }

    /// The slots from which an entry of step One gains.
    fn one_read(&self, key: SideKey, deed: Deed) -> Plan
        ensures { (at : ℕ) → at < 32 →
            plan_slot result at ≡ deed_read self.now key.window key.rank deed at }
    {
        match deed {
            Deed::Nothing => Plan::Nothing,
            Deed::Meets(_) => Plan::Nothing,
            Deed::Posts(_) => Plan::Nothing,
            Deed::Starts(named) => self.start_plan(key, named),
            Deed::Completes => Plan::Nothing,
            Deed::Waits => self.wait_plan(key),
            Deed::Locks { kind, reach } => Plan::Locks {
                window: key.window,
                first: reach.first,
                end: reach.end,
                exclusive: kind == Lock::Shared,
            },
            Deed::Unlocks { .. } => Plan::Nothing,
        }
    }

    /// The slot that an arrival fills.
    fn arrival_plan(&self, key: SideKey, meeting: Meeting) -> Plan
        ensures { (at : ℕ) → at < 32 →
            plan_slot result at ≡ deed_arrived self.now key.window key.rank (Meets meeting) at }
    {
        let round = RoundKey {
            window: key.window,
            meeting,
            rank: key.rank,
        };
        Plan::One(Slot::Round {
            window: key.window,
            meeting,
            round: begun(&self.rounds, round).saturating_add(1),
        })
    }

    /// The slot from which a Leave gains.
    fn leave_plan(&self, key: SideKey, meeting: Meeting) -> Plan
        ensures { (at : ℕ) → at < 32 →
            plan_slot result at ≡ deed_left self.now key.window key.rank (Meets meeting) at }
    {
        let round = RoundKey {
            window: key.window,
            meeting,
            rank: key.rank,
        };
        Plan::One(Slot::Round {
            window: key.window,
            meeting,
            round: begun(&self.rounds, round),
        })
    }

    /// The slots that an entry fills.
    pub(crate) fn given_plan(&self, key: SideKey, step: Step, deed: Deed) -> Plan
        ensures { (at : ℕ) → at < 32 →
            plan_slot result at ≡ step_given self.now key.window key.rank step deed at }
    {
        match step {
            Step::Arrive => match deed {
                Deed::Meets(meeting) => self.arrival_plan(key, meeting),
                _ => Plan::Nothing,
            },
            Step::Leave => Plan::Nothing,
            Step::One => self.one_plan(key, deed),
        }
    }

    /// The slots from which an entry gains.
    pub(crate) fn gained_plan(&self, key: SideKey, step: Step, deed: Deed) -> Plan
        ensures { (at : ℕ) → at < 32 →
            plan_slot result at ≡ step_read self.now key.window key.rank step deed at }
    {
        match step {
            Step::Arrive => Plan::Nothing,
            Step::Leave => match deed {
                Deed::Meets(meeting) => self.leave_plan(key, meeting),
                _ => Plan::Nothing,
            },
            Step::One => self.one_read(key, deed),
        }
    }

    /// One arrival more.
    fn add_arrival(&mut self, key: RoundKey)
        requires { HasRoom self.old }
        ensures { Arrives self.old self.new key }
    {
        arrive(&mut self.rounds, key);
    }

    /// One post more.
    fn add_post(&mut self, key: SideKey, named: &[bool; 16])
        requires { HasRoom self.old }
        ensures { AddsPost self.old self.new key named.now }
    {
        let side = side_of(&self.sides, key).with_post(named);
        put_side(&mut self.sides, key, side);
    }

    /// One start more.
    fn add_start(&mut self, key: SideKey, named: &[bool; 16])
        requires { HasRoom self.old }
        ensures { AddsStart self.old self.new key named.now }
    {
        let side = side_of(&self.sides, key);
        let start = StartKey {
            window: key.window,
            rank: key.rank,
            number: side.starts,
        };
        let ordinals = ordinals_after(&side.started_to, named);
        put_ordinals(&mut self.started, start, ordinals);
        put_side(&mut self.sides, key, side.with_start(named));
    }

    /// One complete more.
    fn add_complete(&mut self, key: SideKey)
        requires { HasRoom self.old }
        ensures { AddsComplete self.old self.new key }
    {
        let side = side_of(&self.sides, key).with_complete();
        put_side(&mut self.sides, key, side);
    }

    /// What an entry adds.
    pub(crate) fn add(&mut self, key: SideKey, step: Step, deed: &Deed)
        requires { HasRoom self.old }
        ensures { Adds self.old self.new key.window key.rank step deed.now }
    {
        match deed {
            Deed::Nothing | Deed::Waits => {}
            Deed::Meets(meeting) => {
                if step == Step::Arrive {
                    let round = RoundKey {
                        window: key.window,
                        meeting: *meeting,
                        rank: key.rank,
                    };
                    self.add_arrival(round);
                }
            }
            Deed::Posts(named) => self.add_post(key, named),
            Deed::Starts(named) => self.add_start(key, named),
            Deed::Completes => self.add_complete(key),
            Deed::Locks { kind, reach } => hold_all(&mut self.held, key, *kind, *reach),
            Deed::Unlocks { reach } => release_all(&mut self.held, key, *reach),
        }
    }
}
