//! What a rank knows of its windows and its ranges: MPI 3.1, sections 11.2 and 11.3.
ghost use Rattle.std.specs.Prelude.{◌≡◌, ℕ, ◌<◌, ◌≤◌, [], true, false, pos, None, Err, OnOk, OnErr, IfSome};
ghost use Rattle.std.specs.Option.{option_map_or};
ghost use Rattle.rma_types.specs.declared.calls.Flavor.TheVariants.{Dynamic as DynamicFlavor};
ghost use Rattle.rma_types.specs.declared.classes.Class.TheVariants.{Win as WinClass};
ghost use Rattle.rma_types.specs.declared.actions.Action.TheVariants.{Attaches};
ghost use Rattle.rma_types.specs.Actions.{action_of};
ghost use Rattle.call_rules.specs.WellFormed.{IsWrittenCall};
ghost use Rattle.rank_rules.specs.WindowTests as tests;
ghost use Rattle.rank_rules.specs.Windows as rules;
ghost use Rattle.window_regions.specs.Shapes.{IsShape};
ghost use Rattle.window_regions.specs.Places.{place_in};
ghost use Rattle.window_regions.specs.RoundsMade.{AreRounds, AreFewRounds, with_round};

mod accesses;
mod classes;

use crate::own::{OwnRanges, make_range};
use crate::places::{Range, place};
use crate::window::{Shape, Window, leave};
use rma_types::{Action, Call, Class, Dtype, NoMemory};
use std::alloc::Global;
use std::marker::Model;

/// No window of any name.
fn no_rounds() -> [u32; 32]
    ensures { AreRounds [] result }
{
    [0; 32]
}

/// How many windows of each name are made, with one more of this name; none where there are too many to number.
fn next_rounds(rounds: &[u32; 32], win: u8) -> Option<[u32; 32]>
    requires { AreFewRounds rounds.now }
    ensures { IfSome result (λ after. (after ≡ with_round rounds.now win) × AreFewRounds after) }
{
    let mut after = *rounds;
    let name = usize::from(win);
    if name < 32 {
        if after[name] == 0x07ff_ffff {
            return None;
        }
        after[name] += 1;
    }
    Some(after)
}

/// The rank, the number of ranks, the bytes of the rank's space, its live windows and its ranges.
#[derive(Debug, Drop)]
pub struct WindowTable {
    rank: u8,
    ranks: u8,
    space: u32,
    created: Vec<u8>,
    /// How many windows of each of the names w0 to w31 the rank has made.
    rounds: [u32; 32],
    windows: Vec<Window>,
    own: OwnRanges,
}

impl Model for WindowTable {
    ghost use Rattle.std.specs.Prelude.{◌<◌, ◌^◌};
    ghost use Rattle.rank_rules.specs.Windows.{RankWindows};
    ghost use Rattle.window_regions.specs.RoundsMade.{AreRounds};

    ghost Value = { RankWindows };

    ghost view = { λ t. record {
      rank = t.rank;
      ranks = t.ranks;
      space = t.space;
      created = t.created.items;
      windows = t.windows.items;
      ranges = t.own;
    } };

    ghost invariant = { λ t. (t.space < 2 ^ 32) × AreRounds t.created.items t.rounds };
}

impl WindowTable {
    /// No windows, at a rank of a run of so many ranks, with so many bytes of space.
    pub fn new(alloc: Global, rank: u8, ranks: u8, space: u32) -> WindowTable
        ensures { result ≡ rules.no_windows rank ranks space }
    {
        WindowTable {
            rank,
            ranks,
            space,
            created: Vec::new(alloc),
            rounds: no_rounds(),
            windows: Vec::new(alloc),
            own: OwnRanges::new(alloc),
        }
    }

    /// The first error class that the windows and the ranges give the call, or none (MPI 3.1, sections 11.2 and 11.3).
    ///
    /// MPI_ERR_WIN, MPI_ERR_RMA_FLAVOR, MPI_ERR_SIZE, MPI_ERR_BASE, MPI_ERR_DISP, MPI_ERR_RMA_RANGE and
    /// MPI_ERR_RMA_ATTACH are tested, in this order.
    pub fn judge(&self, call: &Call) -> Option<Class>
        requires { IsWrittenCall call.now }
        ensures { result ≡ tests.window_class self.now (action_of call.now) }
    {
        match call.action() {
            Action::Creates(creation) => self.creation_class(creation),
            Action::Frees { win } | Action::Synchronises(win, _) => self.live_class(win),
            Action::Attaches { win, base, bytes } => self.attach_class(win, base, bytes),
            Action::Detaches { win, base } => self.detach_class(win, base),
            Action::Moves(transfer) => self.transfer_class(&transfer),
            Action::Meets | Action::EndsRequest { .. } => None,
        }
    }

    /// The number of the next window of this name: 32 times the round of its creation, plus the name.
    pub fn next_number(&self, win: u8) -> u32
        requires { win < 32 }
        ensures { result ≡ rules.next_number self.now.created win }
    {
        32 * self.rounds[usize::from(win)] + u32::from(win)
    }

    /// The window of this name and number is made (MPI 3.1, sections 11.2.1, 11.2.2 and 11.2.4). `Err` changes nothing.
    pub fn made(&mut self, win: u8, window: u32, shape: Shape) -> Result<(), NoMemory>
        requires { IsShape shape.flavor shape.parts }
        ensures ok { OnOk result
            (self.new ≡ rules.with_window self.old win window shape.flavor shape.parts) }
        ensures err { OnErr result (self.new ≡ self.old) }
    {
        if self.created.reserve(1).is_err() || self.windows.reserve(1).is_err() {
            return Err(NoMemory);
        }
        let Some(rounds) = next_rounds(&self.rounds, win) else {
            return Err(NoMemory);
        };
        let flavor = shape.flavor;
        let made = Window::new(win, window, shape);
        let part = made.part(u32::from(self.rank));
        match make_range(&mut self.own, flavor, win, part) {
            Ok(()) => {
                self.rounds = rounds;
                self.created.push_reserved(win);
                self.windows.push_reserved(made);
                Ok(())
            }
            Err(_) => Err(NoMemory),
        }
    }

    /// The window is freed, and with it the ranges that belong to it (MPI 3.1, section 11.2.5).
    pub fn freed(&mut self, win: u8)
        ensures { self.new ≡ rules.without_window self.old win }
    {
        leave(&mut self.windows, win);
        self.own.free(win);
    }

    /// So many bytes from the base on are attached to the window; the call is accepted. `Err` changes nothing.
    pub fn attach(&mut self, win: u8, base: u32, bytes: u32) -> Result<(), NoMemory>
        requires { tests.window_class self.old (Attaches win (pos base) (pos bytes)) ≡ None }
        ensures ok { OnOk result (self.new ≡ rules.with_range self.old win
            (record { base = base; bytes = bytes })) }
        ensures err { OnErr result (self.new ≡ self.old) }
    {
        self.own.attach(win, base, bytes)
    }

    /// The range that begins at the base is detached from the window (MPI 3.1, section 11.2.4). A range of another
    /// window stays.
    pub fn detach(&mut self, win: u8, base: u32)
        ensures { self.new ≡ rules.without_range self.old win base }
    {
        self.own.detach(win, base);
    }

    /// Whether the live window of this name is dynamic (MPI 3.1, section 11.2.4). In a dynamic window the part of each
    /// rank is one without bytes.
    pub fn is_dynamic(&self, win: u8) -> bool
        ensures value { result ≡ option_map_or
            (λ window. rules.is_same_flavor window.flavor DynamicFlavor)
            (rules.window_of_name self.now win) false }
        ensures parts { result ≡ true → IfSome (rules.window_of_name self.now win)
            (λ window. (rank : ℕ) → rules.part_at window.parts rank ≡ rules.no_part) }
    {
        match self.window(win) {
            None => false,
            Some(window) => window.is_dynamic(),
        }
    }

    /// Where so many elements, at most 256, lie at a target of the live window of this name.
    ///
    /// MPI_ERR_DISP where the displacement is below 0 or the address is no multiple of the element's size; else
    /// MPI_ERR_RMA_RANGE where the elements end past the end of the target's part. MPI_ERR_WIN where no window of the
    /// name is live.
    pub fn resolve(
        &self,
        win: u8,
        target: u8,
        disp: i32,
        dtype: Dtype,
        count: u32,
    ) -> Result<Range, Class>
        requires { count ≤ 256 }
        ensures { result ≡ option_map_or (λ window.
            place_in (rules.part_at window.parts target) disp dtype count)
            (rules.window_of_name self.now win) (Err WinClass) }
    {
        match self.window(win) {
            None => Err(Class::Win),
            Some(window) => place(window.part(u32::from(target)), disp, dtype, count),
        }
    }
}
