//! The access of a call on its live window: MPI 3.1, sections 11.2 and 11.3.
ghost use Rattle.std.specs.Prelude.{◌≡◌, Some, None, IfSome};
ghost use Rattle.std.specs.Option.{option_map_or};
ghost use Rattle.rma_types.specs.Actions.{transfer_of};
ghost use Rattle.call_rules.specs.Transfers.{rank_reached as rank_reached_by};
ghost use Rattle.call_rules.specs.WellFormed.{IsUpTo, IsWrittenCall};
ghost use Rattle.rank_rules.specs.Courses.{access_of, access_on};
ghost use Rattle.rank_rules.specs.Windows.{window_of_name};
ghost use Rattle.window_regions.specs.Places.{HasSmallPlace};

use super::WindowTable;
use crate::numbers::{few_elements, natural};
use crate::places::{Range, elements_in};
use rma_types::{Access, Action, Call, Target, Transfer};

impl WindowTable {
    /// The access of a call that moves data, on its live window (MPI 3.1, sections 11.2 and 11.3); none of another
    /// call, and none where the window is not live.
    pub fn access(&self, call: &Call) -> Option<Access>
        requires written { IsWrittenCall call.now }
        requires small { IfSome (transfer_of call.now) (HasSmallPlace self.now) }
        ensures { result ≡ access_of self.now call.now }
    {
        match call.action() {
            Action::Moves(transfer) => self.access_on(&transfer),
            Action::Creates(_)
            | Action::Frees { .. }
            | Action::Attaches { .. }
            | Action::Detaches { .. }
            | Action::Synchronises(_, _)
            | Action::Meets
            | Action::EndsRequest { .. } => None,
        }
    }

    /// The rank whose memory a transfer of this rank reaches.
    fn rank_reached(&self, target: Target) -> u32
        ensures { result ≡ rank_reached_by self.now.rank target }
    {
        match target {
            Target::Own | Target::Null => u32::from(self.rank),
            Target::Named(rank) => natural(rank),
        }
    }

    fn access_on(&self, transfer: &Transfer<'_>) -> Option<Access>
        requires few { IsUpTo 256 transfer.now.count }
        requires small { HasSmallPlace self.now transfer.now }
        ensures { result ≡ option_map_or (λ window. Some (access_on self.now transfer.now window))
            (window_of_name self.now transfer.now.win) None }
    {
        let window = self.window(transfer.win)?;
        let rank = self.rank_reached(transfer.target);
        let count = few_elements(transfer.count);
        let Range { lo, len } = elements_in(
            window.part(rank),
            transfer.disp,
            transfer.dtype,
            count,
        );
        Some(Access {
            window: window.number(),
            target: rank as u8,
            lo,
            len,
            kind: transfer.kind,
        })
    }
}
