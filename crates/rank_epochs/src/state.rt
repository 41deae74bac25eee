//! The epochs of a rank on all windows.
ghost use Rattle.std.specs.Prelude.{◌≡◌, ◌<◌};
ghost use Rattle.rma_types.specs.Actions.{action_of};
ghost use Rattle.call_rules.specs.WellFormed.{IsWrittenCall};
ghost use Rattle.rank_rules.specs.Epochs.{epochs_at, epochs_after, first_epochs};
ghost use Rattle.rank_rules.specs.EpochTests.{epoch_class};
ghost use Rattle.rank_epochs.specs.Accepted.{IsAccepted};

use crate::classes::{has_wrong_operation, is_wrong_target, names_wrong_rank};
use crate::windows::WindowEpochs;
use rank_rules::first_class;
use rma_types::{Action, Call, Class};
use std::array;
use std::marker::Model;

/// The access epoch and the exposure epoch of one rank on each of the windows w0 to w31.
#[derive(Debug, Drop)]
pub struct EpochState {
    windows: [WindowEpochs; 32],
}

impl Model for EpochState {
    ghost use Rattle.std.specs.Prelude.{List};
    ghost use Rattle.rank_rules.specs.Epochs.{Epochs};

    ghost Value = { List Epochs };

    ghost view = { λ s. s.windows };
}

impl EpochState {
    /// No epochs on any window.
    pub fn new() -> EpochState
        ensures { result ≡ first_epochs }
    {
        EpochState {
            windows: array::from_fn(|_| WindowEpochs::new()),
        }
    }

    fn at(&self, win: u8) -> &WindowEpochs
        requires { win < 32 }
        ensures { result.now ≡ epochs_at self.now win }
    {
        &self.windows[win as usize]
    }

    /// The first error class that the call's arguments and the epochs give it, or none, in a run of so many ranks.
    ///
    /// MPI_ERR_COUNT, MPI_ERR_OP, MPI_ERR_RANK, MPI_ERR_ASSERT and MPI_ERR_RMA_SYNC are tested, in this order.
    pub fn judge(&self, call: &Call, ranks: u8) -> Option<Class>
        requires { IsWrittenCall call.now }
        ensures { result ≡ epoch_class ranks self.now (action_of call.now) }
    {
        match call.action() {
            Action::Frees { win } => first_class(&[(!self.at(win).may_free(), Class::Sync)]),
            Action::Synchronises(win, synchronisation) => {
                let here = self.at(win);
                first_class(&[
                    (names_wrong_rank(&synchronisation, ranks), Class::Rank),
                    (here.has_wrong_assert(&synchronisation), Class::Assert),
                    (!here.may_synchronise(&synchronisation), Class::Sync),
                ])
            }
            Action::Moves(transfer) => first_class(&[
                (transfer.count < 0, Class::Count),
                (
                    has_wrong_operation(transfer.kind, transfer.fetches),
                    Class::Op,
                ),
                (is_wrong_target(transfer.target, ranks), Class::Rank),
                (!self.at(transfer.win).may_move(&transfer), Class::Sync),
            ]),
            Action::Creates(_)
            | Action::Attaches { .. }
            | Action::Detaches { .. }
            | Action::Meets
            | Action::EndsRequest { .. } => None,
        }
    }

    /// Brings the epochs to what they are after the accepted call.
    ///
    /// A `testwin` is accepted where it was true.
    pub fn after(&mut self, call: &Call)
        requires written { IsWrittenCall call.now }
        requires accepted { IsAccepted self.old (action_of call.now) }
        ensures { self.new ≡ epochs_after self.old (action_of call.now) }
    {
        match call.action() {
            Action::Creates(creation) => {
                self.windows[creation.win as usize] = WindowEpochs::new();
            }
            Action::Frees { win } => self.windows[win as usize] = WindowEpochs::new(),
            Action::Synchronises(win, synchronisation) => {
                self.windows[win as usize].synchronise(&synchronisation);
            }
            Action::Moves(transfer) => self.windows[transfer.win as usize].transfer(&transfer),
            Action::Attaches { .. }
            | Action::Detaches { .. }
            | Action::Meets
            | Action::EndsRequest { .. } => {}
        }
    }
}
