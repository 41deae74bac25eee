//! The form of the line of each call.
ghost use Rattle.std.specs.Prelude.{◌≡◌, ℕ};
ghost use Rattle.script_language.specs.Calls.{form_of, form_by_request};

use crate::forms::CallForm;
use rma_types::Call;

/// The plain form, or the form that makes a request.
fn by_request(req: Option<u8>, plain: CallForm, request: CallForm) -> CallForm
    ensures { result ≡ form_by_request req plain request }
{
    match req {
        None => plain,
        Some(_) => request,
    }
}

/// The form of a call's line.
pub fn call_form(call: &Call) -> CallForm
    ensures { result ≡ form_of call.now }
{
    match call {
        Call::Allocate { .. } => CallForm::Allocate,
        Call::Create { .. } => CallForm::Create,
        Call::Dynamic { .. } => CallForm::Dynamic,
        Call::Free { .. } => CallForm::Free,
        Call::Attach { .. } => CallForm::Attach,
        Call::Detach { .. } => CallForm::Detach,
        Call::Fence { .. } => CallForm::Fence,
        Call::Post { .. } => CallForm::Post,
        Call::Start { .. } => CallForm::Start,
        Call::Complete { .. } => CallForm::Complete,
        Call::WaitWin { .. } => CallForm::WaitWin,
        Call::TestWin { .. } => CallForm::TestWin,
        Call::LockOne { .. } => CallForm::LockOne,
        Call::Unlock { .. } => CallForm::Unlock,
        Call::LockAll { .. } => CallForm::LockAll,
        Call::UnlockAll { .. } => CallForm::UnlockAll,
        Call::Flush { .. } => CallForm::Flush,
        Call::FlushAll { .. } => CallForm::FlushAll,
        Call::FlushLocal { .. } => CallForm::FlushLocal,
        Call::FlushLocalAll { .. } => CallForm::FlushLocalAll,
        Call::Sync { .. } => CallForm::Sync,
        Call::Barrier => CallForm::Barrier,
        Call::Put { req, .. } => by_request(*req, CallForm::Put, CallForm::RequestPut),
        Call::Get { req, .. } => by_request(*req, CallForm::Get, CallForm::RequestGet),
        Call::Acc { req, .. } => by_request(*req, CallForm::Acc, CallForm::RequestAcc),
        Call::GetAcc { req, .. } => by_request(*req, CallForm::GetAcc, CallForm::RequestGetAcc),
        Call::Fop { .. } => CallForm::Fop,
        Call::Cas { .. } => CallForm::Cas,
        Call::Load { .. } => CallForm::Load,
        Call::Store { .. } => CallForm::Store,
        Call::WaitReq { .. } => CallForm::WaitReq,
        Call::TestReq { .. } => CallForm::TestReq,
    }
}
