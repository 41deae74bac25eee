//! What an entry that ends its call teaches a rank: its windows and ranges after it (MPI 3.1, section 11.2).
ghost use Rattle.std.specs.Prelude.{◌≡◌, ◌<◌, ◌≤◌, ℕ, List, None, IfSome, OnOk, OnErr};
ghost use Rattle.rma_types.specs.declared.actions.Action.TheVariants.{Creates};
ghost use Rattle.rma_types.specs.Actions.{action_of};
ghost use Rattle.call_rules.specs.Ranks.{natural as natural_of};
ghost use Rattle.call_rules.specs.WellFormed.{IsWrittenCall};
ghost use Rattle.rank_rules.specs.WindowTests.{window_class};
ghost use Rattle.rank_rules.specs.Windows as rules;
ghost use Rattle.rma_types.specs.declared.scripts.Part.{Part};
ghost use Rattle.window_regions.specs.Shapes.{IsShape};
ghost use Rattle.rank_engine.specs.Learning.{HasParts, HasShape};

use rma_types::{Action, Call, NoMemory};
use window_regions::{Shape, WindowTable};

/// A number that is not below 0; else 0.
fn natural(number: i32) -> u32
    ensures { result ≡ natural_of number }
{
    if number < 0 { 0 } else { number as u32 }
}

/// The window of this name is live, with the rank's next number.
fn make(windows: &mut WindowTable, win: u8, made: Option<Shape>) -> Result<(), NoMemory>
    requires name { win < 32 }
    requires shape { IfSome made (λ shape. IsShape shape.flavor shape.parts) }
    ensures ok { OnOk result (IfSome made (λ shape. windows.new ≡ rules.with_window windows.old win
        (rules.next_number windows.old.created win) shape.flavor shape.parts)) }
    ensures err { OnErr result (windows.new ≡ windows.old) }
{
    match made {
        None => Ok(()),
        Some(shape) => {
            let number = windows.next_number(win);
            windows.made(win, number, shape)
        }
    }
}

/// The windows and the ranges after an accepted call; `made` is the shape of the window that a creation makes.
#[tactic(auto, using(crate::proofs::Learnt::attach_passes))]
pub fn learn_windows(
    windows: &mut WindowTable,
    call: &Call,
    made: Option<Shape>,
) -> Result<(), NoMemory>
    requires written { IsWrittenCall call.now }
    requires passed { window_class windows.old (action_of call.now) ≡ None }
    requires shape { HasShape (action_of call.now) made }
    ensures ok { OnOk result ((shapes : ℕ → List Part) →
        HasParts shapes windows.old (action_of call.now) made →
        windows.new ≡ rules.windows_after shapes windows.old (action_of call.now)) }
    ensures err { OnErr result (windows.new ≡ windows.old) }
{
    match call.action() {
        Action::Creates(creation) => make(windows, creation.win, made),
        Action::Frees { win } => {
            windows.freed(win);
            Ok(())
        }
        Action::Attaches { win, base, bytes } => windows.attach(win, natural(base), natural(bytes)),
        Action::Detaches { win, base } => {
            windows.detach(win, natural(base));
            Ok(())
        }
        Action::Synchronises(..) | Action::Meets | Action::Moves(_) | Action::EndsRequest { .. } =>
            Ok(()),
    }
}
