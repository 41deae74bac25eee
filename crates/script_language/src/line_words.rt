//! The word that begins a line of each form.
ghost use Rattle.std.specs.Prelude.{◌≡◌};
ghost use Rattle.script_language.specs.Forms.{call_word, word_of_form};

use crate::forms::{CallForm, Form};

/// The word of a call's form.
fn call_text(form: CallForm) -> &'static str
    ensures { result.now ≡ call_word form }
{
    match form {
        CallForm::Allocate => "allocate",
        CallForm::Create => "create",
        CallForm::Dynamic => "dynamic",
        CallForm::Free => "free",
        CallForm::Attach => "attach",
        CallForm::Detach => "detach",
        CallForm::Fence => "fence",
        CallForm::Post => "post",
        CallForm::Start => "start",
        CallForm::Complete => "complete",
        CallForm::WaitWin => "wait",
        CallForm::TestWin => "testwin",
        CallForm::LockOne => "lock",
        CallForm::Unlock => "unlock",
        CallForm::LockAll => "lock_all",
        CallForm::UnlockAll => "unlock_all",
        CallForm::Flush => "flush",
        CallForm::FlushAll => "flush_all",
        CallForm::FlushLocal => "flush_local",
        CallForm::FlushLocalAll => "flush_local_all",
        CallForm::Sync => "sync",
        CallForm::Barrier => "barrier",
        CallForm::Put => "put",
        CallForm::RequestPut => "rput",
        CallForm::Get => "get",
        CallForm::RequestGet => "rget",
        CallForm::Acc => "acc",
        CallForm::RequestAcc => "racc",
        CallForm::GetAcc => "getacc",
        CallForm::RequestGetAcc => "rgetacc",
        CallForm::Fop => "fop",
        CallForm::Cas => "cas",
        CallForm::Load => "load",
        CallForm::Store => "store",
        CallForm::WaitReq => "waitreq",
        CallForm::TestReq => "testreq",
    }
}

/// The word that begins a line of the form.
pub fn form_word(form: Form) -> &'static str
    ensures { result.now ≡ word_of_form form }
{
    match form {
        Form::Ranks => "ranks",
        Form::Space => "space",
        Form::Rank => "rank",
        Form::Repeat => "repeat",
        Form::End => "end",
        Form::Call(call) => call_text(call),
    }
}
