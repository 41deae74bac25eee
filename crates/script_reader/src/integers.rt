//! The numbers of a text.
ghost use Rattle.std.specs.Prelude.{◌≡◌, ◌<◌, ◌≤◌, ◌≤ℤ◌, ◌^◌, true, length, IfOk};
ghost use Rattle.std.specs.Char.{is_ascii_digit};
ghost use Rattle.std.specs.List.{list_all};
ghost use Rattle.std.specs.Str.Parse.{digits_value};
ghost use Rattle.script_language.specs.Integers.{natural_of, integer_of, integer_within};

use script_language::FaultKind;

/// The most digits of a number.
const MOST_DIGITS: usize = 20;

/// The number that at most 20 digits write.
fn value(digits: &[u8]) -> u128
    requires few { length digits.now ≤ 20 }
    requires all { list_all is_ascii_digit digits.now ≡ true }
    ensures value { result ≡ digits_value 10 digits.now }
    ensures fits { result < 10 ^ 20 }
{
    let mut value: u128 = 0;
    for digit in digits {
        value = value * 10 + (*digit - b'0') as u128;
    }
    value
}

/// The number that 1 to 20 digits write.
fn natural(token: &[u8]) -> Result<u128, FaultKind>
    ensures natural { result ≡ natural_of token.now }
    ensures fits { IfOk result (λ n. n < 10 ^ 20) }
{
    if token.is_empty() || token.len() > MOST_DIGITS || !all_digits(token) {
        return Err(FaultKind::Number);
    }
    Ok(value(token))
}

fn all_digits(token: &[u8]) -> bool
    ensures { result ≡ list_all is_ascii_digit token.now }
{
    token.iter().all(|b| b.is_ascii_digit())
}

/// An integer: digits, and a minus sign may stand before them.
fn integer(token: &[u8]) -> Result<i128, FaultKind>
    ensures { result ≡ integer_of token.now }
{
    match token {
        [] => Err(FaultKind::Number),
        [b'-', digits @ ..] => Ok(-(natural(digits)? as i128)),
        _ => Ok(natural(token)? as i128),
    }
}

/// An integer from the lowest to the highest.
pub fn integer_in(low: i64, high: i64, token: &[u8]) -> Result<i64, FaultKind>
    ensures within { result ≡ integer_within low high token.now }
    ensures low { IfOk result (λ z. low ≤ℤ z) }
    ensures high { IfOk result (λ z. z ≤ℤ high) }
{
    let found = integer(token)?;
    if found < low as i128 || found > high as i128 {
        return Err(FaultKind::Limit);
    }
    Ok(found as i64)
}
