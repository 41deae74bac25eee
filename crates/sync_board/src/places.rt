//! The window that an entry is on, by name and round (MPI 3.1, section 11.2).
ghost use Rattle.std.specs.Prelude.{◌≡◌, ℕ, ◌<◌, IfSome};
ghost use Rattle.rma_types.specs.Actions.{window_of_call as window_named_in};
ghost use Rattle.call_rules.specs.WellFormed.{IsWrittenCall};
ghost use Rattle.board_rules.specs.Entries.{begins_window as does_begin_window, is_creation as is_creation_call};

use rma_types::{Action, Call, Step};

/// The name of the window that a call names.
pub(crate) fn window_named(call: &Call) -> Option<u8>
    requires { IsWrittenCall call.now }
    ensures name { result ≡ window_named_in call.now }
    ensures below { IfSome result (λ name. name < 32) }
{
    match call.action() {
        Action::Creates(creation) => Some(creation.win),
        Action::Frees { win }
        | Action::Attaches { win, .. }
        | Action::Detaches { win, .. }
        | Action::Synchronises(win, _) => Some(win),
        Action::Moves(transfer) => Some(transfer.win),
        Action::Meets | Action::EndsRequest { .. } => None,
    }
}

/// The entry is the arrival at a creation.
pub(crate) fn begins_window(call: &Call, step: Step) -> bool
    ensures { (rank number : ℕ) → result ≡
        does_begin_window (record { rank = rank; number = number; call = call.now; step = step }) }
{
    match step {
        Step::Arrive => is_creation(call),
        Step::Leave => false,
        Step::One => false,
    }
}

/// The call makes a window.
fn is_creation(call: &Call) -> bool
    ensures { result ≡ is_creation_call call.now }
{
    match call.action() {
        Action::Creates(_) => true,
        Action::Frees { .. }
        | Action::Attaches { .. }
        | Action::Detaches { .. }
        | Action::Synchronises(..)
        | Action::Meets
        | Action::Moves(_)
        | Action::EndsRequest { .. } => false,
    }
}
