//! The canonical text of a script.
ghost use Rattle.std.specs.Prelude.{◌≡◌, ◌++◌, ◌∷◌, [], OnOk, IfOk};
ghost use Rattle.std.specs.List.{flat_map};
ghost use Rattle.std.specs.String.{string_bytes};
ghost use Rattle.script_language.specs.Canon.{canon, call_line, space_lines, rank_lines};

use crate::lines::{write_call, write_line};
use crate::said::{NOTHING, Said};
use rma_types::{Call, Items, NoMemory, Script};
use script_language::Form;
use std::alloc::{AllocError, Global};

/// Writes the line of a rank's space, unless it has none.
fn write_space(text: &mut String, rank: usize, bytes: u32) -> Result<(), AllocError>
    ensures { OnOk result
        (string_bytes text.new ≡ string_bytes text.old ++ space_lines rank (bytes ∷ [])) }
{
    if bytes == 0 {
        return Ok(());
    }
    let said = Said {
        owner: rank,
        room: bytes,
        ..NOTHING
    };
    write_line(text, Form::Space, &said)
}

/// Writes the lines of all spaces.
fn write_spaces(text: &mut String, spaces: &[u32]) -> Result<(), AllocError>
    ensures { OnOk result
        (string_bytes text.new ≡ string_bytes text.old ++ space_lines 0 spaces.now) }
{
    for rank in 0..spaces.len() {
        write_space(text, rank, spaces[rank])?;
    }
    Ok(())
}

/// Writes the lines of calls.
fn write_calls(text: &mut String, calls: &[Call]) -> Result<(), AllocError>
    ensures { OnOk result
        (string_bytes text.new ≡ string_bytes text.old ++ flat_map call_line calls.now) }
{
    for index in 0..calls.len() {
        write_call(text, &calls[index])?;
    }
    Ok(())
}

/// Writes the block of a rank, unless it has no calls.
fn write_rank(text: &mut String, rank: usize, calls: &[Call]) -> Result<(), AllocError>
    ensures { OnOk result
        (string_bytes text.new ≡ string_bytes text.old ++ rank_lines rank (calls.now ∷ [])) }
{
    if calls.is_empty() {
        return Ok(());
    }
    let said = Said {
        member: Some(rank),
        ..NOTHING
    };
    write_line(text, Form::Rank, &said)?;
    write_calls(text, calls)
}

/// Writes the blocks of all ranks.
fn write_ranks(text: &mut String, lists: &[Items<Call>]) -> Result<(), AllocError>
    ensures { OnOk result
        (string_bytes text.new ≡ string_bytes text.old ++ rank_lines 0 lists.now) }
{
    for rank in 0..lists.len() {
        write_rank(text, rank, lists[rank].as_slice())?;
    }
    Ok(())
}

/// Writes all lines of a script.
fn write_script(text: &mut String, script: &Script) -> Result<(), AllocError>
    ensures { OnOk result (string_bytes text.new ≡ string_bytes text.old ++ canon script.now) }
{
    let said = Said {
        ranks: script.ranks,
        ..NOTHING
    };
    write_line(text, Form::Ranks, &said)?;
    write_spaces(text, script.spaces.as_slice())?;
    write_ranks(text, script.calls.as_slice())
}

/// The canonical text of a script: the number of ranks, then the space of each rank that has some, then the calls of
/// each rank that makes one, a line each. `NoMemory` says nothing of the script.
///
/// It takes any script. Where a text can say the script, and this text is at most 1,048,576 bytes long, it is read
/// again as the script.
pub fn script_text(alloc: Global, script: &Script) -> Result<Vec<u8>, NoMemory>
    ensures { IfOk result (λ text. text.items ≡ canon script.now) }
{
    let mut text = String::new(alloc);
    match write_script(&mut text, script) {
        Ok(()) => Ok(text.into_bytes()),
        Err(_) => Err(NoMemory),
    }
}
