//! The words that begin the lines of a text.
ghost use Rattle.std.specs.Prelude.{◌≡◌};
ghost use Rattle.std.specs.List.{find};
ghost use Rattle.std.specs.Str.{bytes_eq};
ghost use Rattle.script_language.specs.Forms.{word_of_form};
ghost use Rattle.script_language.specs.Words.{form_named as the_form_named};
ghost use Rattle.script_reader.specs.Beginnings.{forms_with};

use crate::words::is_text;
use script_language::{CallForm, Form, form_word};

const WITH_A: [Form; 3] = [
    Form::Call(CallForm::Allocate),
    Form::Call(CallForm::Attach),
    Form::Call(CallForm::Acc),
];

const WITH_B: [Form; 1] = [Form::Call(CallForm::Barrier)];

const WITH_C: [Form; 3] = [
    Form::Call(CallForm::Create),
    Form::Call(CallForm::Complete),
    Form::Call(CallForm::Cas),
];

const WITH_D: [Form; 2] = [Form::Call(CallForm::Dynamic), Form::Call(CallForm::Detach)];

const WITH_E: [Form; 1] = [Form::End];

const WITH_F: [Form; 7] = [
    Form::Call(CallForm::Free),
    Form::Call(CallForm::Fence),
    Form::Call(CallForm::Flush),
    Form::Call(CallForm::FlushAll),
    Form::Call(CallForm::FlushLocal),
    Form::Call(CallForm::FlushLocalAll),
    Form::Call(CallForm::Fop),
];

const WITH_G: [Form; 2] = [Form::Call(CallForm::Get), Form::Call(CallForm::GetAcc)];

const WITH_L: [Form; 3] = [
    Form::Call(CallForm::LockOne),
    Form::Call(CallForm::LockAll),
    Form::Call(CallForm::Load),
];

const WITH_P: [Form; 2] = [Form::Call(CallForm::Post), Form::Call(CallForm::Put)];

const WITH_R: [Form; 7] = [
    Form::Ranks,
    Form::Rank,
    Form::Repeat,
    Form::Call(CallForm::RequestPut),
    Form::Call(CallForm::RequestGet),
    Form::Call(CallForm::RequestAcc),
    Form::Call(CallForm::RequestGetAcc),
];

const WITH_S: [Form; 4] = [
    Form::Space,
    Form::Call(CallForm::Start),
    Form::Call(CallForm::Sync),
    Form::Call(CallForm::Store),
];

const WITH_T: [Form; 2] = [Form::Call(CallForm::TestWin), Form::Call(CallForm::TestReq)];

const WITH_U: [Form; 2] = [
    Form::Call(CallForm::Unlock),
    Form::Call(CallForm::UnlockAll),
];

const WITH_W: [Form; 2] = [Form::Call(CallForm::WaitWin), Form::Call(CallForm::WaitReq)];

/// The forms whose words begin with the byte.
fn forms_beginning(byte: u8) -> &'static [Form]
    ensures { result.now ≡ forms_with byte }
{
    match byte {
        b'a' => &WITH_A,
        b'b' => &WITH_B,
        b'c' => &WITH_C,
        b'd' => &WITH_D,
        b'e' => &WITH_E,
        b'f' => &WITH_F,
        b'g' => &WITH_G,
        b'l' => &WITH_L,
        b'p' => &WITH_P,
        b'r' => &WITH_R,
        b's' => &WITH_S,
        b't' => &WITH_T,
        b'u' => &WITH_U,
        b'w' => &WITH_W,
        _ => &[],
    }
}

/// The first of the forms whose word is the token.
fn named_among(forms: &[Form], token: &[u8]) -> Option<Form>
    ensures { result ≡ find (λ form. bytes_eq (word_of_form form) token.now) forms.now }
{
    forms
        .iter()
        .copied()
        .find(|form| is_text(form_word(*form), token))
}

/// The form whose word is the token.
pub fn form_named(token: &[u8]) -> Option<Form>
    ensures { result ≡ the_form_named token.now }
{
    match token {
        [byte, ..] => named_among(forms_beginning(*byte), token),
        [] => None,
    }
}
