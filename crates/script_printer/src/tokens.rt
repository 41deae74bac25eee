//! The tokens of a line, one space before each of them.
ghost use Rattle.std.specs.Prelude.{◌≡◌, ◌++◌, ◌∷◌, [], ◌≤◌, map, filter, OnOk};
ghost use Rattle.std.specs.String.{string_bytes};
ghost use Rattle.std.specs.Option.{option_to_list};
ghost use Rattle.call_rules.specs.Numbers.{signed_number};
ghost use Rattle.call_rules.specs.Text.{number, integer};
ghost use Rattle.script_language.specs.Spelling.{spelling_of, target_text, pattern_text};
ghost use Rattle.script_language.specs.Spelling.{is_given as given};
ghost use Rattle.script_language.specs.Words.{all_assertions, assertion_text, window_text, request_text};
ghost use Rattle.script_printer.specs.Printing.{behind_spaces, fields_said};

use crate::said::Said;
use rma_types::{Asserts, Dtype};
use script_language::{
    Assertion, Place, assertion_word, assertions, dtype_word, is_given, lock_word, op_word,
};
use std::alloc::AllocError;

/// Writes a word.
fn write_word(text: &mut String, word: &str) -> Result<(), AllocError>
    ensures { OnOk result
        (string_bytes text.new ≡ string_bytes text.old ++ behind_spaces (word.now ∷ [])) }
{
    write!(text, " {word}")
}

/// Writes a number that is not negative.
fn write_number(text: &mut String, n: u64) -> Result<(), AllocError>
    ensures { OnOk result
        (string_bytes text.new ≡ string_bytes text.old ++ behind_spaces (number n ∷ [])) }
{
    write!(text, " {n}")
}

/// Writes an integer.
fn write_integer(text: &mut String, z: i64) -> Result<(), AllocError>
    ensures { OnOk result
        (string_bytes text.new ≡ string_bytes text.old ++ behind_spaces (integer z ∷ [])) }
{
    write!(text, " {z}")
}

/// Writes an assertion that is given.
fn write_assertion(
    text: &mut String,
    asserts: Asserts,
    assertion: Assertion,
) -> Result<(), AllocError>
    ensures { OnOk result
        (string_bytes text.new
        ≡ string_bytes text.old
        ++ behind_spaces (map assertion_text (filter (given asserts) (assertion ∷ [])))) }
{
    if is_given(asserts, assertion) {
        write_word(text, assertion_word(assertion))
    } else {
        Ok(())
    }
}

/// Writes the assertions that are given, each once.
fn write_assertions(text: &mut String, asserts: Asserts) -> Result<(), AllocError>
    ensures { OnOk result
        (string_bytes text.new
        ≡ string_bytes text.old
        ++ behind_spaces (map assertion_text (filter (given asserts) all_assertions))) }
{
    let all = assertions();
    for index in 0..all.len() {
        write_assertion(text, asserts, all[index])?;
    }
    Ok(())
}

/// Writes the ranks of a group.
fn write_group(text: &mut String, group: &[i32]) -> Result<(), AllocError>
    ensures { OnOk result
        (string_bytes text.new ≡ string_bytes text.old ++ behind_spaces (map integer group.now)) }
{
    for index in 0..group.len() {
        write_integer(text, i64::from(group[index]))?;
    }
    Ok(())
}

/// Writes a rank, or `null` for MPI_PROC_NULL.
fn write_target(text: &mut String, target: Option<i32>) -> Result<(), AllocError>
    ensures { OnOk result
        (string_bytes text.new ≡ string_bytes text.old ++ behind_spaces (target_text target ∷ [])) }
{
    match target {
        None => write_word(text, "null"),
        Some(rank) => write_integer(text, i64::from(rank)),
    }
}

/// Writes the name of a window.
fn write_window(text: &mut String, win: u8) -> Result<(), AllocError>
    ensures { OnOk result
        (string_bytes text.new ≡ string_bytes text.old ++ behind_spaces (window_text win ∷ [])) }
{
    write!(text, " w{win}")
}

/// Writes the name of a request.
fn write_request(text: &mut String, req: u8) -> Result<(), AllocError>
    ensures { OnOk result
        (string_bytes text.new ≡ string_bytes text.old ++ behind_spaces (request_text req ∷ [])) }
{
    write!(text, " q{req}")
}

/// Writes the number below `half` that a pattern is, or that it is 2 * `half` above. A pattern of 2 * `half` or
/// more is written as -1.
fn write_signed(text: &mut String, half: u64, pattern: u64) -> Result<(), AllocError>
    requires some { 1 ≤ half }
    requires half { half ≤ 2147483648 }
    ensures { OnOk result
        (string_bytes text.new
        ≡ string_bytes text.old ++ behind_spaces (integer (signed_number half pattern) ∷ [])) }
{
    if pattern < half {
        write_number(text, pattern)
    } else {
        let below = (2 * half - 1).saturating_sub(pattern);
        write_integer(text, -1 - below as i64)
    }
}

/// Writes a bit pattern as a number of its datatype.
fn write_pattern(text: &mut String, dtype: Dtype, pattern: u64) -> Result<(), AllocError>
    ensures { OnOk result
        (string_bytes text.new
        ≡ string_bytes text.old ++ behind_spaces (pattern_text dtype pattern ∷ [])) }
{
    match dtype {
        Dtype::Int8 => write_signed(text, 128, pattern),
        Dtype::Int16 => write_signed(text, 32_768, pattern),
        Dtype::Int32 => write_signed(text, 2_147_483_648, pattern),
        Dtype::Uint8 | Dtype::Uint16 | Dtype::Uint32 | Dtype::Byte => write_number(text, pattern),
    }
}

/// Writes the values of a transfer.
fn write_values(text: &mut String, dtype: Dtype, values: &[u64]) -> Result<(), AllocError>
    ensures { OnOk result
        (string_bytes text.new
        ≡ string_bytes text.old ++ behind_spaces (map (pattern_text dtype) values.now)) }
{
    for index in 0..values.len() {
        write_pattern(text, dtype, values[index])?;
    }
    Ok(())
}

/// Writes the rank of a block.
fn write_member(text: &mut String, member: Option<usize>) -> Result<(), AllocError>
    ensures { OnOk result
        (string_bytes text.new
        ≡ string_bytes text.old ++ behind_spaces (map number (option_to_list member))) }
{
    match member {
        None => Ok(()),
        Some(rank) => write_number(text, rank as u64),
    }
}

/// Writes what a line says at a place. A block has no further ranks.
pub(crate) fn write_place(
    text: &mut String,
    said: &Said<'_>,
    place: Place,
) -> Result<(), AllocError>
    ensures { OnOk result
        (string_bytes text.new
        ≡ string_bytes text.old ++ behind_spaces (spelling_of (fields_said said.now) place)) }
{
    match place {
        Place::Ranks => write_number(text, u64::from(said.ranks)),
        Place::Owner => write_number(text, said.owner as u64),
        Place::Room => write_number(text, u64::from(said.room)),
        Place::Member => write_member(text, said.member),
        Place::Members => Ok(()),
        Place::Times => write_number(text, 0),
        Place::Request => write_request(text, said.req),
        Place::Window => write_window(text, said.win),
        Place::Base => write_integer(text, i64::from(said.base)),
        Place::Size => write_integer(text, i64::from(said.bytes)),
        Place::Unit => write_integer(text, i64::from(said.unit)),
        Place::LockKind => write_word(text, lock_word(said.lock)),
        Place::Peer => write_integer(text, i64::from(said.peer)),
        Place::Group => write_group(text, said.group),
        Place::Assertions => write_assertions(text, said.asserts),
        Place::Target => write_target(text, said.target),
        Place::Displacement => write_integer(text, i64::from(said.disp)),
        Place::ElementType => write_word(text, dtype_word(said.dtype)),
        Place::Operation => write_word(text, op_word(said.op)),
        Place::Count => write_integer(text, i64::from(said.count)),
        Place::Compare => write_pattern(text, said.dtype, said.compare),
        Place::Value => write_pattern(text, said.dtype, said.value),
        Place::Values => write_values(text, said.dtype, said.values),
    }
}
