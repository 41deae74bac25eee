//! The accesses for which a step is what is looked for.
ghost use Rattle.std.specs.Prelude.{◌≡◌, None};
ghost use Rattle.std.specs.Option.{option_map_or};
ghost use Rattle.rma_types.specs.Actions.{synchronisation_of};
ghost use Rattle.first_points.specs.Keys.{call_key as call_key_of, origin_key, reach_key};
ghost use Rattle.first_points.specs.Keys.{step_key as step_key_of, target_key, window_key as window_key_of};
ghost use Rattle.std.specs.Prelude.{Some};

use crate::calls::{arrives_at_fence, gives_out, is_complete, is_wait, natural_rank, takes_in};
use crate::searches::{Sought, call_of};
use rank_records::KeptStep;
use rma_types::{Call, Script, Step};

/// What an access looks for among the steps of a rank: a step on its window, or the end of its request.
#[derive(Clone, Copy, Debug, PartialEq, Eq)]
pub(crate) enum Aim {
    Window(Sought),
    Request,
}

/// The accesses for which a step is what is looked for: all on a window, those on a window towards one target, or those
/// of one call.
#[derive(Clone, Copy, Debug, PartialEq, Eq, Hash)]
pub(crate) enum StepKey {
    OnWindow { window: u32 },
    Towards { window: u32, target: u32 },
    OfCall { number: u32 },
}

fn window_key(window: u32, does: bool) -> Option<StepKey>
    ensures { result ≡ window_key_of window does }
{
    if does {
        Some(StepKey::OnWindow { window })
    } else {
        None
    }
}

fn rank_key(window: u32, rank: i32) -> StepKey
    ensures { result ≡ reach_key window (Some rank) }
{
    StepKey::Towards {
        window,
        target: natural_rank(rank),
    }
}

/// The accesses on the window that the call completes at their target: those towards the rank of an unlock or of a
/// flush, or all (MPI 3.1, sections 11.5.3 and 11.5.4).
fn key_at_target(window: u32, call: &Call) -> Option<StepKey>
    ensures { result ≡ option_map_or (target_key window) (synchronisation_of call.now) None }
{
    match call {
        Call::Unlock { win: _, target } | Call::Flush { win: _, target } => Some(rank_key(
            window, *target,
        )),
        Call::UnlockAll { .. } | Call::FlushAll { .. } => Some(StepKey::OnWindow { window }),
        _ => None,
    }
}

/// The accesses on the window that the call completes at their origin alone: those towards the rank of a local flush,
/// or all (MPI 3.1, section 11.5.4).
fn key_at_origin(window: u32, call: &Call) -> Option<StepKey>
    ensures { result ≡ option_map_or (origin_key window) (synchronisation_of call.now) None }
{
    match call {
        Call::FlushLocal { win: _, target } => Some(rank_key(window, *target)),
        Call::Complete { .. } | Call::FlushLocalAll { .. } => Some(StepKey::OnWindow { window }),
        _ => None,
    }
}

fn call_key(window: u32, sought: Sought, step: Step, call: &Call) -> Option<StepKey>
    ensures { result ≡ call_key_of window sought step call.now }
{
    match sought {
        Sought::FenceArrival => window_key(window, arrives_at_fence(step, call)),
        Sought::Complete => window_key(window, is_complete(call)),
        Sought::Wait => window_key(window, is_wait(call)),
        Sought::AtTarget => key_at_target(window, call),
        Sought::AtOrigin => key_at_origin(window, call),
        Sought::TakingIn => window_key(window, takes_in(step, call)),
        Sought::GivingOut => window_key(window, gives_out(step, call)),
    }
}

/// The accesses for which the step is what is looked for, or whose request it ends.
pub(crate) fn step_key(script: &Script, aim: Aim, step: &KeptStep) -> Option<StepKey>
    ensures { result ≡ step_key_of script.now aim step.now }
{
    match aim {
        Aim::Window(sought) => match step.window {
            Some(window) => match call_of(script, step) {
                Some(call) => call_key(window, sought, step.step, call),
                None => None,
            },
            None => None,
        },
        Aim::Request => match step.maker {
            Some(number) => Some(StepKey::OfCall { number }),
            None => None,
        },
    }
}
