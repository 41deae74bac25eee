//! What a token says at its place.
ghost use Rattle.std.specs.Prelude.{◌≡◌};
ghost use Rattle.std.specs.List.{list_all};
ghost use Rattle.script_language.specs.Calls.{no_fields as the_no_fields};
ghost use Rattle.script_language.specs.Forms.{is_many as many};
ghost use Rattle.script_language.specs.Tokens.{token_read, next_read, tokens_read};
ghost use Rattle.script_language.specs.Tokens.{begins_number as number_begins, places_from as the_places_from};
ghost use Rattle.script_reader.specs.Answers.{Does, Gives};
ghost use Rattle.script_reader.specs.Lexing.{tokens_in};
ghost use Rattle.script_reader.specs.Telling.{Tells};

use crate::errors::ReadError;
use crate::lexing::{is_printable, next_token};
use crate::numerals::{
    add_member, add_rank, add_value, integer_up_to, natural_in, owner, pattern, plain, target,
};
use crate::words::{
    assertion_named, dtype_named, lock_named, op_named, request_named, window_named,
};
use rma_types::{Asserts, Dtype, Items, Lock, Op};
use script_language::{Draft, FaultKind, Fields, Place, asserts_with, is_group, is_many};
use std::alloc::Global;

/// Reads a token at its place.
fn tell(draft: &Draft, fields: &mut Fields, place: Place, token: &[u8]) -> Result<(), ReadError>
    ensures { Does result fields.new (token_read draft.now fields.old place token.now) }
{
    match place {
        Place::Ranks => {
            fields.ranks = natural_in(1, 16, token)? as u8;
            Ok(())
        }
        Place::Owner => {
            fields.owner = owner(draft, token)?;
            Ok(())
        }
        Place::Room => {
            fields.room = natural_in(0, 65536, token)?;
            Ok(())
        }
        Place::Member | Place::Members => add_member(draft, &mut fields.members, token),
        Place::Times => {
            fields.times = natural_in(1, 65536, token)?;
            Ok(())
        }
        Place::Request => {
            fields.req = request_named(token).ok_or(FaultKind::Name)?;
            Ok(())
        }
        Place::Window => {
            fields.win = window_named(token).ok_or(FaultKind::Name)?;
            Ok(())
        }
        Place::Base => {
            fields.base = plain(token)?;
            Ok(())
        }
        Place::Size => {
            fields.bytes = integer_up_to(65536, token)?;
            Ok(())
        }
        Place::Unit => {
            fields.unit = integer_up_to(64, token)?;
            Ok(())
        }
        Place::LockKind => {
            fields.lock = lock_named(token).ok_or(FaultKind::Word)?;
            Ok(())
        }
        Place::Peer => {
            fields.peer = plain(token)?;
            Ok(())
        }
        Place::Group => add_rank(&mut fields.group, token),
        Place::Assertions => {
            let assertion = assertion_named(token).ok_or(FaultKind::Word)?;
            fields.asserts = asserts_with(fields.asserts, assertion);
            Ok(())
        }
        Place::Target => {
            fields.target = target(token)?;
            Ok(())
        }
        Place::Displacement => {
            fields.disp = plain(token)?;
            Ok(())
        }
        Place::ElementType => {
            fields.dtype = dtype_named(token).ok_or(FaultKind::Datatype)?;
            Ok(())
        }
        Place::Operation => {
            fields.op = op_named(token).ok_or(FaultKind::Op)?;
            Ok(())
        }
        Place::Count => {
            fields.count = integer_up_to(256, token)?;
            Ok(())
        }
        Place::Compare => {
            fields.compare = pattern(fields, token)?;
            Ok(())
        }
        Place::Value => {
            fields.value = pattern(fields, token)?;
            Ok(())
        }
        Place::Values => add_value(fields, token),
    }
}

/// Whether each place that is left takes no token too.
fn are_many(places: &[Place]) -> bool
    ensures { result ≡ list_all many places.now }
{
    places.iter().all(|place| is_many(*place))
}

/// Whether a token begins with a digit or a minus sign.
fn begins_number(token: &[u8]) -> bool
    ensures { result ≡ number_begins token.now }
{
    match token {
        [byte, ..] => byte.is_ascii_digit() || *byte == b'-',
        [] => false,
    }
}

/// The places from the one on at which the token stands.
fn places_from<'a>(places: &'a [Place], token: &[u8]) -> &'a [Place]
    ensures { result.now ≡ the_places_from places.now token.now }
{
    match places {
        [place, rest @ ..] if is_group(*place) && !begins_number(token) => rest,
        _ => places,
    }
}

/// Reads one more token, and gives the places that are left.
fn tell_next<'a>(
    draft: &Draft,
    fields: &mut Fields,
    places: &'a [Place],
    token: &[u8],
) -> Result<&'a [Place], ReadError>
    ensures { Tells result fields.new (next_read draft.now fields.old places.now token.now) }
{
    if !is_printable(token) {
        return Err(ReadError::Refused(FaultKind::Word));
    }
    let places = places_from(places, token);
    match places {
        [] => Err(ReadError::Refused(FaultKind::Shape)),
        [place, rest @ ..] => {
            tell(draft, fields, *place, token)?;
            if is_many(*place) {
                Ok(places)
            } else {
                Ok(rest)
            }
        }
    }
}

/// A line that says nothing.
fn no_fields(alloc: Global) -> Fields
    ensures { result ≡ the_no_fields }
{
    Fields {
        ranks: 0,
        owner: 0,
        room: 0,
        members: Items::new(alloc),
        times: 0,
        req: 0,
        win: 0,
        base: 0,
        bytes: 0,
        unit: 0,
        lock: Lock::Shared,
        peer: 0,
        group: Items::new(alloc),
        asserts: Asserts {
            nocheck: false,
            nostore: false,
            noput: false,
            noprecede: false,
            nosucceed: false,
        },
        target: None,
        disp: 0,
        dtype: Dtype::Int8,
        op: Op::Replace,
        count: 0,
        compare: 0,
        value: 0,
        values: Items::new(alloc),
    }
}

/// Reads all tokens behind the word of a line.
pub fn read_fields(
    alloc: Global,
    draft: &Draft,
    places: &[Place],
    line: &[u8],
) -> Result<Fields, ReadError>
    ensures { Gives result (tokens_read draft.now the_no_fields places.now (tokens_in line.now)) }
{
    let mut fields = no_fields(alloc);
    let mut left = places;
    let mut rest = line;
    while let Some((token, behind)) = next_token(rest) {
        left = tell_next(draft, &mut fields, left, token)?;
        rest = behind;
    }
    if are_many(left) {
        Ok(fields)
    } else {
        Err(ReadError::Refused(FaultKind::Shape))
    }
}
