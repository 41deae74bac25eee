//! What a rank gives with its entries, and what it gains by them (MPI 3.1, section 11.7).
ghost use Rattle.std.specs.Prelude.{◌≡◌, false, IfSome};
ghost use Rattle.std.specs.Option.{option_map, option_map_or};
ghost use Rattle.rma_types.specs.Actions.{synchronisation_of};
ghost use Rattle.cell_face.specs.Faces.{Keeps, Unwritten};
ghost use Rattle.rank_engine.specs.BoardAnswers.{gives as gives_by, hands_on as hands_on_by, IsGift, IsMetBy};

use cell_face::Memory;
use rma_types::{Action, Call, Step, Synchronisation};

/// Whether the call hands on what its rank has seen: a post, a complete or an unlock.
fn hands_on(call: &Call) -> bool
    ensures { result ≡ option_map_or hands_on_by (synchronisation_of call.now) false }
{
    match call.action() {
        Action::Synchronises(_, synchronisation) => match synchronisation {
            Synchronisation::Posts(..) | Synchronisation::Completes | Synchronisation::Unlocks(_) =>
                true,
            Synchronisation::Fences(_)
            | Synchronisation::Starts(..)
            | Synchronisation::Waits { .. }
            | Synchronisation::Locks(..)
            | Synchronisation::Flushes { .. }
            | Synchronisation::Syncs => false,
        },
        _ => false,
    }
}

/// Whether a token is given with this step of the call.
fn gives(call: &Call, step: Step) -> bool
    ensures { result ≡ gives_by step call.now }
{
    match step {
        Step::Arrive => true,
        Step::Leave => hands_on(call),
        Step::One => hands_on(call),
    }
}

/// The token that is given with this step of the call, if one is.
#[tactic(auto, using(crate::proofs::Unwritten::nothing_written))]
pub fn gift_of<M: Memory>(notes: &mut M, call: &Call, step: Step) -> Option<M::Note>
    ensures gift { IsGift (M.face notes.old) (gives_by step call.now)
        (option_map M.Note.front result) }
    ensures origin { IfSome result (λ token. M.Note.origin token ≡ (M.face notes.old).name) }
    ensures unwritten { Unwritten (M.face notes.old) (M.face notes.new) }
    ensures moves { (M.face notes.new).moves ≡ (M.face notes.old).moves }
    ensures known { Keeps (M.knows notes.old) (M.knows notes.new) }
{
    if gives(call, step) {
        Some(notes.note())
    } else {
        None
    }
}

/// What a token carries is met.
#[tactic(auto, using(crate::proofs::Unwritten::nothing_written))]
pub fn meet<M: Memory>(notes: &mut M, token: Option<M::Note>)
    requires { IfSome token (λ one. M.Note.origin one ≡ (M.face notes.old).name) }
    ensures met { IsMetBy (M.face notes.new) (option_map M.Note.front token) }
    ensures unwritten { Unwritten (M.face notes.old) (M.face notes.new) }
    ensures moves { (M.face notes.new).moves ≡ (M.face notes.old).moves }
    ensures known { Keeps (M.knows notes.old) (M.knows notes.new) }
{
    if let Some(one) = token {
        notes.meet(one);
    }
}
