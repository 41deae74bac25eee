//! Copies of calls, and lists that grow by them.
ghost use Rattle.std.specs.Prelude.{◌≡◌, ◌<◌, ◌∷◌, ◌++◌, [], length, OnOk};
ghost use Rattle.std.specs.List.{AllByRecursion};
ghost use Rattle.script_language.specs.Drafts.{repeat_calls, added_to};

use rma_types::{Call, Items};
use std::alloc::{AllocError, Global};

/// The calls behind those of the list.
fn push_all(alloc: Global, list: &mut Items<Call>, calls: &[Call]) -> Result<(), AllocError>
    ensures { OnOk result (list.new ≡ list.old ++ calls.now) }
{
    for call in calls {
        let copy = call.copy(alloc)?;
        list.push(copy)?;
    }
    Ok(())
}

/// The calls, so often, behind those of the list.
fn push_times(
    alloc: Global,
    list: &mut Items<Call>,
    times: u32,
    calls: &[Call],
) -> Result<(), AllocError>
    ensures { OnOk result (list.new ≡ list.old ++ repeat_calls times calls.now) }
{
    for _ in 0..times {
        push_all(alloc, list, calls)?;
    }
    Ok(())
}

/// The calls, so often, behind those of each rank of the block.
pub fn expand(
    alloc: Global,
    lists: &mut Vec<Items<Call>>,
    block: &[u8],
    times: u32,
    calls: &[Call],
) -> Result<(), AllocError>
    requires { AllByRecursion (λ rank. rank < length lists.old.items) block.now }
    ensures { OnOk result (lists.new.items ≡ added_to block.now
        (repeat_calls times calls.now) lists.old.items) }
{
    match block {
        [] => Ok(()),
        [rank, rest @ ..] => {
            push_times(alloc, &mut lists[*rank as usize], times, calls)?;
            expand(alloc, lists, rest, times, calls)
        }
    }
}

/// The call behind those of each rank of the block. Each rank but the last takes a copy.
pub fn append(
    alloc: Global,
    lists: &mut Vec<Items<Call>>,
    block: &[u8],
    call: Call,
) -> Result<(), AllocError>
    requires { AllByRecursion (λ rank. rank < length lists.old.items) block.now }
    ensures { OnOk result (lists.new.items ≡ added_to block.now (call ∷ []) lists.old.items) }
{
    match block {
        [] => Ok(()),
        [rank] => lists[*rank as usize].push(call),
        [rank, rest @ ..] => {
            let copy = call.copy(alloc)?;
            lists[*rank as usize].push(copy)?;
            append(alloc, lists, rest, call)
        }
    }
}
