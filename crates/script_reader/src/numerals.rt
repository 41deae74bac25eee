//! The numbers at the places of a line.
ghost use Rattle.std.specs.Prelude.{◌≡◌, ◌<◌, ◌≤◌, ◌≤ℤ◌, pos, nat_abs, IfOk};
ghost use Rattle.call_rules.specs.Ranks.{is_member};
ghost use Rattle.call_rules.specs.Numbers.{patterns_of, pattern_of as the_pattern_of};
ghost use Rattle.script_language.specs.Integers.{integer_up_to as the_integer_up_to, plain_integer, least_of};
ghost use Rattle.script_language.specs.Integers.{greatest_of};
ghost use Rattle.script_language.specs.Tokens.{natural_within, pattern_read, target_read, rank_read, owner_read};
ghost use Rattle.script_language.specs.Tokens.{members_read, group_read, values_read};
ghost use Rattle.script_reader.specs.Answers.{Does};
ghost use Rattle.script_reader.specs.Telling.{with_value};

use crate::errors::ReadError;
use crate::integers::integer_in;
use crate::words::is_text;
use rma_types::{Dtype, Group, Items};
use script_language::{Draft, FaultKind, Fields};

/// The most ranks of a group, as they are written.
const MOST_RANKS: usize = 16;

/// The most values of a call.
const MOST_VALUES: usize = 256;

/// The lowest number that is no value: -2^31.
const LOWEST: i64 = -2_147_483_648;

/// A number that is not below 0, from the least to the most.
pub fn natural_in(least: u32, most: u32, token: &[u8]) -> Result<u32, FaultKind>
    ensures within { result ≡ natural_within least most token.now }
    ensures most { IfOk result (λ n. n ≤ most) }
{
    Ok(integer_in(least as i64, most as i64, token)? as u32)
}

/// An integer from -2^31 to the most.
pub fn integer_up_to(most: i32, token: &[u8]) -> Result<i32, FaultKind>
    requires { pos 0 ≤ℤ most }
    ensures { result ≡ the_integer_up_to (nat_abs most) token.now }
{
    Ok(integer_in(LOWEST, most as i64, token)? as i32)
}

/// An integer from -2^31 to 2^31 - 1.
pub fn plain(token: &[u8]) -> Result<i32, FaultKind>
    ensures { result ≡ plain_integer token.now }
{
    integer_up_to(i32::MAX, token)
}

fn least(dtype: Dtype) -> i64
    ensures { result ≡ least_of dtype }
{
    match dtype {
        Dtype::Int8 => -128,
        Dtype::Int16 => -32_768,
        Dtype::Int32 => -2_147_483_648,
        Dtype::Uint8 | Dtype::Uint16 | Dtype::Uint32 | Dtype::Byte => 0,
    }
}

fn greatest(dtype: Dtype) -> i64
    ensures { result ≡ greatest_of dtype }
{
    match dtype {
        Dtype::Int8 => 127,
        Dtype::Int16 => 32_767,
        Dtype::Int32 => 2_147_483_647,
        Dtype::Uint8 | Dtype::Byte => 255,
        Dtype::Uint16 => 65_535,
        Dtype::Uint32 => 4_294_967_295,
    }
}

/// How many bit patterns an element has.
fn patterns(dtype: Dtype) -> u64
    ensures value { result ≡ patterns_of dtype }
    ensures some { 0 < result }
{
    match dtype {
        Dtype::Int8 | Dtype::Uint8 | Dtype::Byte => 256,
        Dtype::Int16 | Dtype::Uint16 => 65_536,
        Dtype::Int32 | Dtype::Uint32 => 4_294_967_296,
    }
}

/// The bit pattern of the number that is congruent to `number`.
fn pattern_of(dtype: Dtype, number: i64) -> u64
    ensures { result ≡ the_pattern_of dtype number }
{
    if number < 0 {
        patterns(dtype) - 1 - (number.unsigned_abs() - 1) % patterns(dtype)
    } else {
        number as u64 % patterns(dtype)
    }
}

/// A number of the datatype of the line, as a bit pattern.
pub fn pattern(fields: &Fields, token: &[u8]) -> Result<u64, FaultKind>
    ensures { result ≡ pattern_read fields.now token.now }
{
    let dtype = fields.dtype;
    let number = integer_in(least(dtype), greatest(dtype), token)?;
    Ok(pattern_of(dtype, number))
}

/// MPI_PROC_NULL, or a rank.
pub fn target(token: &[u8]) -> Result<Option<i32>, FaultKind>
    ensures { result ≡ target_read token.now }
{
    if is_text("null", token) {
        Ok(None)
    } else {
        Ok(Some(plain(token)?))
    }
}

/// A rank of the script.
fn rank(draft: &Draft, token: &[u8]) -> Result<u8, FaultKind>
    ensures { result ≡ rank_read draft.now token.now }
{
    Ok(natural_in(0, draft.ranks.saturating_sub(1) as u32, token)? as u8)
}

/// A rank whose space no line gave yet.
pub fn owner(draft: &Draft, token: &[u8]) -> Result<u8, FaultKind>
    ensures { result ≡ owner_read draft.now token.now }
{
    let rank = rank(draft, token)?;
    match draft.spaces.get(rank as usize) {
        Some(Some(_)) => Err(FaultKind::Shape),
        Some(None) => Ok(rank),
        None => Ok(rank),
    }
}

fn is_among(rank: u8, ranks: &[u8]) -> bool
    ensures { result ≡ is_member rank ranks.now }
{
    ranks.iter().any(|other| *other == rank)
}

/// The ranks of a block with one more, which is not among them.
pub fn add_member(draft: &Draft, members: &mut Items<u8>, token: &[u8]) -> Result<(), ReadError>
    ensures { Does result members.new (members_read draft.now members.old token.now) }
{
    let rank = rank(draft, token)?;
    if is_among(rank, members.as_slice()) {
        return Err(ReadError::Refused(FaultKind::Shape));
    }
    members.push(rank)?;
    Ok(())
}

/// A group with one more rank.
pub fn add_rank(group: &mut Group, token: &[u8]) -> Result<(), ReadError>
    ensures { Does result group.new (group_read group.old token.now) }
{
    if group.len() >= MOST_RANKS {
        return Err(ReadError::Refused(FaultKind::Limit));
    }
    let rank = plain(token)?;
    group.push(rank)?;
    Ok(())
}

/// The values of a line with one more.
pub fn add_value(fields: &mut Fields, token: &[u8]) -> Result<(), ReadError>
    ensures { Does result fields.new (with_value fields.old (values_read fields.old token.now)) }
{
    if fields.values.len() >= MOST_VALUES {
        return Err(ReadError::Refused(FaultKind::Limit));
    }
    let pattern = pattern(fields, token)?;
    fields.values.push(pattern)?;
    Ok(())
}
