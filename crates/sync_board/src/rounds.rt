//! The rounds of collective calls on one window (MPI 3.1, sections 11.2.1 and 11.5.1).
ghost use Rattle.std.specs.Prelude.{◌≡◌, ℕ, ◌<◌, not, List, length, Some, OnOk, OnErr};
ghost use Rattle.std.specs.List.{list_any};
ghost use Rattle.std.specs.Option.{option_and_then};
ghost use Rattle.rank_rules.specs.Windows.{is_same_flavor};
ghost use Rattle.board_rules.specs.Entries.{collective_of, fence_or_none};
ghost use Rattle.board_rules.specs.Questions.{Question};
ghost use Rattle.board_rules.specs.Rounds.{all_arrived, do_asserts_differ, has_other_asserts, has_other_flavor};
ghost use Rattle.board_rules.specs.Rounds.{is_differing_creation, is_differing_fence};
ghost use Rattle.sync_board.specs.Sides.{Done, done_at};
ghost use Rattle.sync_board.specs.Rounds.{HasRounds, arrival_in, arrivals_by, asserts_in, flavor_in, with_creation};
ghost use Rattle.sync_board.specs.Rounds.{kind_by, with_fence, with_free};
ghost use Rattle.sync_board.specs.Tables.{HasNoRounds};

use crate::grown::Idle;
use rma_types::{Action, Asserts, Call, Flavor, NoMemory, Synchronisation};
use std::alloc::Global;

/// Which collective calls on a window are meant: its creations, frees or fences.
#[derive(Clone, Copy, Debug)]
pub(crate) enum Kind {
    Creation,
    Freeing,
    Fence,
}

/// The kind of a synchronisation that is collective.
fn fence_kind(synchronisation: &Synchronisation<'_>) -> Option<Kind>
    ensures { result ≡ option_and_then kind_by (fence_or_none synchronisation.now) }
{
    match synchronisation {
        Synchronisation::Fences(_) => Some(Kind::Fence),
        Synchronisation::Posts(..)
        | Synchronisation::Starts(..)
        | Synchronisation::Completes
        | Synchronisation::Waits { .. }
        | Synchronisation::Locks(..)
        | Synchronisation::Unlocks(_)
        | Synchronisation::Flushes { .. }
        | Synchronisation::Syncs => None,
    }
}

/// The kind of a call that is collective on a window.
pub(crate) fn kind_of(call: &Call) -> Option<Kind>
    ensures { result ≡ option_and_then kind_by (collective_of call.now) }
{
    match call.action() {
        Action::Creates(_) => Some(Kind::Creation),
        Action::Frees { .. } => Some(Kind::Freeing),
        Action::Synchronises(_, synchronisation) => fence_kind(&synchronisation),
        Action::Attaches { .. }
        | Action::Detaches { .. }
        | Action::Meets
        | Action::Moves(_)
        | Action::EndsRequest { .. } => None,
    }
}

/// The rounds in which one rank has arrived on one window: the flavors of its creations, the number of its frees,
/// and the assertions of its fences.
#[derive(Debug, Drop)]
pub(crate) struct Rounds {
    pub(crate) created: Vec<Flavor>,
    pub(crate) freed: u32,
    pub(crate) fences: Vec<Asserts>,
}

/// Two fences of one round differ in noprecede or nosucceed (MPI 3.1, section 11.5.5).
fn do_differ(a: Asserts, b: Asserts) -> bool
    ensures { result ≡ do_asserts_differ a b }
{
    a.noprecede != b.noprecede || a.nosucceed != b.nosucceed
}

fn is_other(a: Flavor, b: Flavor) -> bool
    ensures { result ≡ not (is_same_flavor a b) }
{
    a != b
}

impl Rounds {
    /// A rank that has arrived nowhere.
    fn new(alloc: Global) -> Rounds
        ensures { (d : Done) → HasNoRounds d → HasRounds d result }
    {
        Rounds {
            created: Vec::new(alloc),
            freed: 0,
            fences: Vec::new(alloc),
        }
    }

    /// How often the rank has arrived.
    pub(crate) fn begun(&self, kind: Kind) -> usize
        ensures { (d : Done) → HasRounds d self.now → result ≡ length (arrivals_by kind d) }
    {
        match kind {
            Kind::Creation => self.created.len(),
            Kind::Freeing => self.freed as usize,
            Kind::Fence => self.fences.len(),
        }
    }

    /// The rank has arrived at the fence of the round with other assertions (MPI 3.1, section 11.5.5).
    pub(crate) fn fence_differs(&self, round: usize, asserts: Asserts) -> bool
        ensures { (d : Done) → HasRounds d self.now →
            result ≡ list_any (is_differing_fence asserts) (arrival_in d.fences round) }
    {
        match self.fences.get(round) {
            Some(other) => do_differ(asserts, *other),
            None => false,
        }
    }

    /// The rank has arrived at the creation of the round with another flavor.
    pub(crate) fn creation_differs(&self, round: usize, flavor: Flavor) -> bool
        ensures { (d : Done) → HasRounds d self.now →
            result ≡ list_any (is_differing_creation flavor) (arrival_in d.creations round) }
    {
        match self.created.get(round) {
            Some(other) => is_other(flavor, *other),
            None => false,
        }
    }

    /// One arrival more at the window's creation.
    pub(crate) fn create(&mut self, flavor: Flavor) -> Result<(), NoMemory>
        ensures ok { OnOk result ((d : Done) (call : Call) →
            flavor_in call ≡ Some flavor → HasRounds d self.old → HasRounds (with_creation d call) self.new) }
        ensures err { OnErr result ((d : Done) → HasRounds d self.old → HasRounds d self.new) }
    {
        match self.created.push(flavor) {
            Ok(()) => Ok(()),
            Err(_) => Err(NoMemory),
        }
    }

    /// One arrival more at a free.
    pub(crate) fn free(&mut self) -> Result<(), NoMemory>
        ensures ok { OnOk result ((d : Done) (call : Call) →
            HasRounds d self.old → HasRounds (with_free d call) self.new) }
        ensures err { OnErr result ((d : Done) → HasRounds d self.old → HasRounds d self.new) }
    {
        self.freed = self.freed.checked_add(1).ok_or(NoMemory)?;
        Ok(())
    }

    /// One arrival more at a fence.
    pub(crate) fn fence(&mut self, asserts: Asserts) -> Result<(), NoMemory>
        ensures ok { OnOk result ((d : Done) (call : Call) →
            asserts_in call ≡ Some asserts → HasRounds d self.old → HasRounds (with_fence d call) self.new) }
        ensures err { OnErr result ((d : Done) → HasRounds d self.old → HasRounds d self.new) }
    {
        match self.fences.push(asserts) {
            Ok(()) => Ok(()),
            Err(_) => Err(NoMemory),
        }
    }
}

impl Idle for Rounds {
    ghost is_idle = { λ rounds. (d : Done) → HasNoRounds d → HasRounds d rounds };

    fn idle(alloc: Global) -> Rounds {
        Rounds::new(alloc)
    }
}
