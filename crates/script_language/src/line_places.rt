//! The table of the places of each form of a line.
ghost use Rattle.std.specs.Prelude.{◌≡◌};
ghost use Rattle.script_language.specs.Forms.{call_places, places_of, is_many as many, is_group as group};

use crate::forms::{CallForm, Form};
use crate::places::Place;
use crate::places::Place::{
    Assertions, Base, Compare, Count, Displacement, ElementType, Group, LockKind, Operation, Peer,
    Request, Size, Target, Unit, Value, Values, Window,
};

/// The places of a call's form.
fn call_place_list(form: CallForm) -> &'static [Place]
    ensures { result.now ≡ call_places form }
{
    match form {
        CallForm::Allocate => &[Window, Size, Unit],
        CallForm::Create => &[Window, Base, Size, Unit],
        CallForm::Attach => &[Window, Base, Size],
        CallForm::Detach => &[Window, Base],
        CallForm::Dynamic | CallForm::Free | CallForm::Complete | CallForm::WaitWin => &[Window],
        CallForm::TestWin | CallForm::UnlockAll | CallForm::FlushAll => &[Window],
        CallForm::FlushLocalAll | CallForm::Sync => &[Window],
        CallForm::Fence | CallForm::LockAll => &[Window, Assertions],
        CallForm::Post | CallForm::Start => &[Window, Group, Assertions],
        CallForm::LockOne => &[Window, LockKind, Peer, Assertions],
        CallForm::Unlock | CallForm::Flush | CallForm::FlushLocal => &[Window, Peer],
        CallForm::Barrier => &[],
        CallForm::Put => &[Window, Target, Displacement, ElementType, Values],
        CallForm::RequestPut => &[Request, Window, Target, Displacement, ElementType, Values],
        CallForm::Get => &[Window, Target, Displacement, ElementType, Count],
        CallForm::RequestGet => &[Request, Window, Target, Displacement, ElementType, Count],
        CallForm::Acc | CallForm::GetAcc => &[
            Window,
            Target,
            Displacement,
            ElementType,
            Operation,
            Values,
        ],
        CallForm::RequestAcc | CallForm::RequestGetAcc => &[
            Request,
            Window,
            Target,
            Displacement,
            ElementType,
            Operation,
            Values,
        ],
        CallForm::Fop => &[Window, Target, Displacement, ElementType, Operation, Value],
        CallForm::Cas => &[Window, Target, Displacement, ElementType, Compare, Value],
        CallForm::Load => &[Window, Displacement, ElementType, Count],
        CallForm::Store => &[Window, Displacement, ElementType, Values],
        CallForm::WaitReq | CallForm::TestReq => &[Request],
    }
}

/// The places that follow the word of a line of the form.
pub fn form_places(form: Form) -> &'static [Place]
    ensures { result.now ≡ places_of form }
{
    match form {
        Form::Ranks => &[Place::Ranks],
        Form::Space => &[Place::Owner, Place::Room],
        Form::Rank => &[Place::Member, Place::Members],
        Form::Repeat => &[Place::Times],
        Form::End => &[],
        Form::Call(call) => call_place_list(call),
    }
}

/// Whether the place takes any number of tokens, also none.
pub fn is_many(place: Place) -> bool
    ensures { result ≡ many place }
{
    match place {
        Place::Members | Place::Group | Place::Assertions | Place::Values => true,
        _ => false,
    }
}

/// Whether the place takes the ranks of a group.
pub fn is_group(place: Place) -> bool
    ensures { result ≡ group place }
{
    match place {
        Place::Group => true,
        _ => false,
    }
}
