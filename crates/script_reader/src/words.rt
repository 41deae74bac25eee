//! The words and names of a text.
ghost use Rattle.std.specs.Prelude.{◌≡◌, ℕ, ◌∷◌, ◌<◌, ◌≤◌, ◌-◌, drop, min};
ghost use Rattle.std.specs.Fmt.{decimal};
ghost use Rattle.std.specs.List.{find, range_with_len};
ghost use Rattle.std.specs.Str.{bytes_eq};
ghost use Rattle.script_language.specs.Words.{dtype_named as the_dtype_named};
ghost use Rattle.script_language.specs.Words.{op_named as the_op_named, lock_named as the_lock_named};
ghost use Rattle.script_language.specs.Words.{assertion_named as the_assertion_named, window_named as the_window_named};
ghost use Rattle.script_language.specs.Words.{request_named as the_request_named};

use rma_types::{Dtype, Lock, Op};
use script_language::{
    Assertion, assertion_word, assertions, dtype_word, dtypes, lock_word, locks, op_word, ops,
};

/// Whether a text is the token.
pub fn is_text(text: &str, token: &[u8]) -> bool
    ensures { result ≡ bytes_eq text.now token.now }
{
    text.as_bytes() == token
}

pub fn dtype_named(token: &[u8]) -> Option<Dtype>
    ensures { result ≡ the_dtype_named token.now }
{
    dtypes()
        .iter()
        .copied()
        .find(|x| is_text(dtype_word(*x), token))
}

pub fn op_named(token: &[u8]) -> Option<Op>
    ensures { result ≡ the_op_named token.now }
{
    ops().iter().copied().find(|x| is_text(op_word(*x), token))
}

pub fn lock_named(token: &[u8]) -> Option<Lock>
    ensures { result ≡ the_lock_named token.now }
{
    locks()
        .iter()
        .copied()
        .find(|x| is_text(lock_word(*x), token))
}

pub fn assertion_named(token: &[u8]) -> Option<Assertion>
    ensures { result ≡ the_assertion_named token.now }
{
    assertions()
        .iter()
        .copied()
        .find(|x| is_text(assertion_word(*x), token))
}

/// Whether the token is a letter and a number below 100.
fn is_name(letter: u8, number: u8, token: &[u8]) -> bool
    requires { number < 100 }
    ensures { result ≡ bytes_eq (letter ∷ decimal number) token.now }
{
    if number < 10 {
        is_token(&[letter, b'0' + number], token)
    } else {
        is_token(&[letter, b'0' + number / 10, b'0' + number % 10], token)
    }
}

fn is_token(text: &[u8], token: &[u8]) -> bool
    ensures { result ≡ bytes_eq text.now token.now }
{
    text == token
}

/// The digit that a byte writes. Any other byte counts as some digit too.
fn digit(byte: u8) -> u8
    ensures { result ≡ min (byte - 48) 9 }
{
    byte.saturating_sub(b'0').min(9)
}

/// The number below 100 that the digits write, where they write one without a leading zero.
fn short_number(digits: &[u8]) -> u8
    ensures number { (n : ℕ) → n < 100 → decimal n ≡ digits.now → result ≡ n }
    ensures below { result < 100 }
{
    match digits {
        [last] => digit(*last),
        [first, last] => digit(*first) * 10 + digit(*last),
        _ => 0,
    }
}

/// The bytes behind the first.
fn behind_first(token: &[u8]) -> &[u8]
    ensures { result.now ≡ drop 1 token.now }
{
    match token {
        [_, rest @ ..] => rest,
        [] => token,
    }
}

/// The number below the limit that follows the letter.
fn numbered(letter: u8, limit: u8, token: &[u8]) -> Option<u8>
    requires { limit ≤ 100 }
    ensures { result ≡ find (λ n. bytes_eq (letter ∷ decimal n) token.now)
        (range_with_len 0 limit) }
{
    let number = short_number(behind_first(token));
    if number < limit && is_name(letter, number, token) {
        Some(number)
    } else {
        None
    }
}

/// A window's name, from 0 to 31.
pub fn window_named(token: &[u8]) -> Option<u8>
    ensures { result ≡ the_window_named token.now }
{
    numbered(b'w', 32, token)
}

/// A request's name, from 0 to 63.
pub fn request_named(token: &[u8]) -> Option<u8>
    ensures { result ≡ the_request_named token.now }
{
    numbered(b'q', 64, token)
}
