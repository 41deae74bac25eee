//! The class of a call by each of its tests: MPI 3.1, sections 11.2 and 11.3.
ghost use Rattle.std.specs.Prelude.{◌≡◌};
ghost use Rattle.std.specs.Option.{option_copied};
ghost use Rattle.rma_types.specs.declared.actions.Action.TheVariants.{Creates, Attaches, Detaches, Frees, Moves};
ghost use Rattle.rma_types.specs.declared.actions.Target.TheVariants.{Own, Named};
ghost use Rattle.call_rules.specs.WellFormed.{IsUpTo};
ghost use Rattle.rank_rules.specs.Ranges.{covers};
ghost use Rattle.rank_rules.specs.WindowTests as tests;
ghost use Rattle.rank_rules.specs.Windows as rules;
ghost use Rattle.window_regions.specs.Places.{class_attached};

use super::WindowTable;
use crate::numbers::{few_elements, is_rank, natural};
use crate::places::{Range, address};
use crate::window::{Window, find_window};
use rank_rules::first_class;
use rma_types::{Class, Creation, Flavor, Target, Transfer};

impl WindowTable {
    pub(super) fn window(&self, win: u8) -> Option<&Window>
        ensures { option_copied result ≡ rules.window_of_name self.now win }
    {
        find_window(self.windows.as_slice(), win)
    }

    pub(super) fn is_live(&self, win: u8) -> bool
        ensures { result ≡ rules.is_live self.now win }
    {
        self.window(win).is_some()
    }

    pub(super) fn is_not_dynamic(&self, win: u8) -> bool
        ensures { result ≡ tests.is_not_dynamic self.now win }
    {
        match self.window(win) {
            None => false,
            Some(window) => !window.is_dynamic(),
        }
    }

    pub(super) fn is_outside(&self, base: i32, bytes: i32) -> bool
        ensures { result ≡ tests.is_outside self.now base bytes }
    {
        base < 0 || i64::from(self.space) < i64::from(base) + i64::from(bytes)
    }

    pub(super) fn is_in_use(&self, base: i32, bytes: i32) -> bool
        ensures { result ≡ tests.is_in_use self.now base bytes }
    {
        self.own.is_taken(natural(base), natural(bytes))
    }

    pub(super) fn has_wrong_base(&self, flavor: Flavor, base: i32, bytes: i32) -> bool
        ensures { result ≡ tests.has_wrong_base self.now flavor base bytes }
    {
        match flavor {
            Flavor::Allocate => false,
            Flavor::Create => self.is_outside(base, bytes) || self.is_in_use(base, bytes),
            Flavor::Dynamic => false,
        }
    }

    pub(super) fn is_no_base(&self, win: u8, base: i32) -> bool
        ensures { result ≡ tests.is_no_base self.now win base }
    {
        base < 0 || !self.own.has_attached(win, natural(base))
    }

    /// The class of a call that only needs the window to be live.
    pub(super) fn live_class(&self, win: u8) -> Option<Class>
        ensures { result ≡ tests.window_class self.now (Frees win) }
    {
        first_class(&[(!self.is_live(win), Class::Win)])
    }

    pub(super) fn creation_class(&self, creation: Creation) -> Option<Class>
        ensures { result ≡ tests.window_class self.now (Creates creation) }
    {
        let Creation {
            win,
            flavor,
            base,
            bytes,
            unit,
        } = creation;
        first_class(&[
            (self.is_live(win), Class::Win),
            (bytes < 0, Class::Size),
            (self.has_wrong_base(flavor, base, bytes), Class::Base),
            (unit < 1, Class::Disp),
        ])
    }

    pub(super) fn attach_class(&self, win: u8, base: i32, bytes: i32) -> Option<Class>
        ensures { result ≡ tests.window_class self.now (Attaches win base bytes) }
    {
        first_class(&[
            (!self.is_live(win), Class::Win),
            (self.is_not_dynamic(win), Class::Flavor),
            (bytes < 1, Class::Size),
            (self.is_outside(base, bytes), Class::Base),
            (self.is_in_use(base, bytes), Class::Attach),
        ])
    }

    pub(super) fn detach_class(&self, win: u8, base: i32) -> Option<Class>
        ensures { result ≡ tests.window_class self.now (Detaches win base) }
    {
        first_class(&[
            (!self.is_live(win), Class::Win),
            (self.is_not_dynamic(win), Class::Flavor),
            (self.is_no_base(win, base), Class::Base),
        ])
    }

    /// The class of a place in the rank's own part of a dynamic window: MPI_ERR_RMA_RANGE where a byte of it is not
    /// attached (MPI 3.1, section 11.2.4).
    fn attached_class(&self, win: u8, place: Result<Range, Class>) -> Option<Class>
        ensures { result ≡ class_attached (covers (rules.attached_to self.now win)) place }
    {
        match place {
            Err(class) => Some(class),
            Ok(range) => {
                if self.own.covers(win, range.lo, range.len) {
                    None
                } else {
                    Some(Class::Range)
                }
            }
        }
    }

    /// The class of a transfer; one at MPI_PROC_NULL needs the window to be live, and nothing else.
    pub(super) fn transfer_class(&self, transfer: &Transfer<'_>) -> Option<Class>
        requires { IsUpTo 256 transfer.now.count }
        ensures { result ≡ tests.window_class self.now (Moves transfer.now) }
    {
        match transfer.target {
            Target::Own => self.own_class(transfer),
            Target::Null => self.live_class(transfer.win),
            Target::Named(rank) => self.reach_class(transfer, rank),
        }
    }

    /// The class of a load or a store.
    fn own_class(&self, transfer: &Transfer<'_>) -> Option<Class>
        requires few { IsUpTo 256 transfer.now.count }
        requires own { transfer.now.target ≡ Own }
        ensures { result ≡ tests.window_class self.now (Moves transfer.now) }
    {
        let Transfer {
            win,
            disp,
            dtype,
            count,
            ..
        } = transfer;
        if *count < 0 {
            return self.live_class(*win);
        }
        let count = few_elements(*count);
        if self.is_dynamic(*win) {
            self.attached_class(*win, address(*disp, *dtype, count))
        } else {
            self.resolve(*win, self.rank, *disp, *dtype, count).err()
        }
    }

    /// The class of an RMA call at a named rank.
    fn reach_class(&self, transfer: &Transfer<'_>, rank: i32) -> Option<Class>
        requires few { IsUpTo 256 transfer.now.count }
        requires named { transfer.now.target ≡ Named rank }
        ensures { result ≡ tests.window_class self.now (Moves transfer.now) }
    {
        let Transfer {
            win,
            disp,
            dtype,
            count,
            ..
        } = transfer;
        if *count < 0 || !is_rank(rank, self.ranks) {
            return self.live_class(*win);
        }
        let count = few_elements(*count);
        if self.is_dynamic(*win) {
            address(*disp, *dtype, count).err()
        } else {
            self.resolve(*win, rank as u8, *disp, *dtype, count).err()
        }
    }
}
