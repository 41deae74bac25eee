//! The numbers among the words.
ghost use Rattle.std.specs.Prelude.{◌≡◌, ◌<◌, ◌≤◌, ◌^◌, true, length};
ghost use Rattle.std.specs.Char.{is_ascii_digit};
ghost use Rattle.std.specs.List.{list_all};
ghost use Rattle.std.specs.Str.Parse.{digits_value};
ghost use Rattle.command_words.specs.Values.{number_up_to};

/// The most digits of a number.
const MOST_DIGITS: usize = 10;

/// The number that at most 10 digits write.
fn value(digits: &[u8]) -> u64
    requires few { length digits.now ≤ 10 }
    requires all { list_all is_ascii_digit digits.now ≡ true }
    ensures value { result ≡ digits_value 10 digits.now }
    ensures fits { result < 10 ^ 10 }
{
    let mut value: u64 = 0;
    for digit in digits {
        value = value * 10 + (*digit - b'0') as u64;
    }
    value
}

fn all_digits(text: &[u8]) -> bool
    ensures { result ≡ list_all is_ascii_digit text.now }
{
    text.iter().all(|byte| byte.is_ascii_digit())
}

/// The number that 1 to 10 decimal digits write, where it is at most `most`; none for every other text.
pub fn number_in(text: &[u8], most: u32) -> Option<u32>
    ensures { result ≡ number_up_to most text.now }
{
    if text.is_empty() || text.len() > MOST_DIGITS || !all_digits(text) {
        return None;
    }
    let number = value(text);
    if number > most as u64 {
        return None;
    }
    Some(number as u32)
}
