//! The lines about the calls of a rank.
ghost use Rattle.std.specs.Prelude.{◌≡◌, ◌+◌, ◌++◌, ◌<◌, [], ◌∷◌, length, codes, OnOk, IfSome};
ghost use Rattle.std.specs.List.{flat_map};
ghost use Rattle.std.specs.String.{string_bytes};
ghost use Rattle.call_rules.specs.Pieces.{numbers_from};
ghost use Rattle.run_report.specs.Chains.{AreChains};
ghost use Rattle.run_report.specs.Parts.{item_lines, lines_of_call, numbers_found, said_lines, waiting_lines};
ghost use Rattle.run_texts.specs.Answers.{fetched_words, standing_call};
ghost use Rattle.run_texts.specs.Report.{answer_line, call_lines};

use crate::chains::Chains;
use crate::fetches::{fetched_type, write_numbers};
use crate::standings::{call_at, stands_at};
use rma_record::Item;
use rma_types::{Access, Call, Dtype};
use std::alloc::{AllocError, Global};

/// Writes a line of two words about a call.
fn write_words(
    text: &mut String,
    rank: u8,
    call: usize,
    first: &str,
    second: &str,
) -> Result<(), AllocError>
    ensures { OnOk result
        (string_bytes text.new
        ≡ string_bytes text.old ++ answer_line rank (record { call = call; words = first.now ∷ second.now ∷ [] })) }
{
    write!(text, "{rank}:{call}")?;
    write!(text, " {first} {second}\n")
}

/// Writes the line of an access that fetched, whose `Issue` stands at the index.
fn write_value(
    text: &mut String,
    rank: u8,
    call: u32,
    access: &Access,
    dtype: Dtype,
    calls: usize,
    items: &[Item],
    chains: &Chains,
    index: usize,
) -> Result<(), AllocError>
    requires index { index < length items.now }
    requires chains { AreChains calls items.now 0 chains.now.first.items chains.now.next.items }
    ensures { OnOk result
        (string_bytes text.new
        ≡ string_bytes text.old
        ++ answer_line rank (record {
          call = call;
          words = codes "value" ∷ fetched_words items.now index access.now dtype;
        })) }
{
    write!(text, "{rank}:{call} value")?;
    write_numbers(text, access, dtype, calls, items, chains, index)?;
    text.push_str("\n")?;
    Ok(())
}

/// Writes what the `Issue` at the index says of its call.
fn write_issue(
    text: &mut String,
    rank: u8,
    calls: &[Call],
    items: &[Item],
    chains: &Chains,
    index: usize,
    call: u32,
    access: &Access,
) -> Result<(), AllocError>
    requires index { index < length items.now }
    requires chains { AreChains (length calls.now) items.now 0 chains.now.first.items
        chains.now.next.items }
    ensures { OnOk result
        (string_bytes text.new
        ≡ string_bytes text.old ++ item_lines rank calls.now items.now index (Item.Issue call access.now)) }
{
    match call_at(calls, call as usize) {
        None => Ok(()),
        Some(made) => match fetched_type(made) {
            None => Ok(()),
            Some(dtype) => {
                write_value(
                    text,
                    rank,
                    call,
                    access,
                    dtype,
                    calls.len(),
                    items,
                    chains,
                    index,
                )
            }
        },
    }
}

/// Writes what an item of a log says of its call.
fn write_item(
    text: &mut String,
    rank: u8,
    calls: &[Call],
    items: &[Item],
    chains: &Chains,
    index: usize,
    item: &Item,
) -> Result<(), AllocError>
    requires index { index < length items.now }
    requires chains { AreChains (length calls.now) items.now 0 chains.now.first.items
        chains.now.next.items }
    ensures { OnOk result
        (string_bytes text.new ≡ string_bytes text.old ++ item_lines rank calls.now items.now index item.now) }
{
    match item {
        Item::Issue { call, access } => {
            write_issue(text, rank, calls, items, chains, index, *call, access)
        }
        Item::Refused { call, class, .. } => write_words(
            text,
            rank,
            *call as usize,
            "refused",
            class.text(),
        ),
        Item::Tested { call, .. } => write_words(text, rank, *call as usize, "test", "false"),
        Item::Entry { call, .. } => match call_at(calls, *call as usize) {
            Some(Call::TestWin { .. }) => write_words(text, rank, *call as usize, "test", "true"),
            _ => Ok(()),
        },
        _ => Ok(()),
    }
}

/// Writes what the items of a call say of it.
fn write_said(
    text: &mut String,
    rank: u8,
    calls: &[Call],
    items: &[Item],
    chains: &Chains,
    call: usize,
) -> Result<(), AllocError>
    requires call { call < length calls.now }
    requires chains { AreChains (length calls.now) items.now 0 chains.now.first.items
        chains.now.next.items }
    ensures { OnOk result (string_bytes text.new ≡ string_bytes text.old ++
        said_lines rank calls.now items.now call) }
{
    let mut at = chains.first(call);
    'links: while at < items.len() {
        write_item(text, rank, calls, items, chains, at, &items[at])?;
        at = chains.next(at);
    }
    Ok(())
}

/// Writes that the rank waits at a call, where it stands there.
fn write_waiting(
    text: &mut String,
    rank: u8,
    calls: &[Call],
    stands: Option<usize>,
    call: usize,
) -> Result<(), AllocError>
    requires { IfSome stands (λ at. at < length calls.now) }
    ensures { OnOk result (string_bytes text.new ≡ string_bytes text.old ++
        waiting_lines rank calls.now stands call) }
{
    match stands {
        Some(at) => {
            if at == call {
                write_words(text, rank, at, "waits", calls[at].word())
            } else {
                Ok(())
            }
        }
        None => Ok(()),
    }
}

/// Writes the lines about a rank's calls, call by call.
pub(crate) fn write_calls(
    alloc: Global,
    text: &mut String,
    rank: u8,
    calls: &[Call],
    items: &[Item],
) -> Result<(), AllocError>
    ensures { OnOk result (string_bytes text.new ≡ string_bytes text.old ++
        call_lines rank calls.now items.now) }
{
    let chains = Chains::of(alloc, calls.len(), items)?;
    let stands = stands_at(calls, items, &chains);
    for call in 0..calls.len() {
        write_said(text, rank, calls, items, &chains, call)?;
        write_waiting(text, rank, calls, stands, call)?;
    }
    Ok(())
}
