//! Where a rank stands.
ghost use Rattle.std.specs.Prelude.{◌≡◌, ◌<◌, length, is_none, slice_get, IfSome};
ghost use Rattle.std.specs.List.{list_any};
ghost use Rattle.std.specs.Option.{option_copied};
ghost use Rattle.rma_types.specs.Actions.{transfer_of};
ghost use Rattle.rank_rules.specs.Knowledge.{ends_call};
ghost use Rattle.run_report.specs.Chains.{AreChains};
ghost use Rattle.run_texts.specs.Answers.{ends as does_end, first_left as first_left_of, standing_call};

use crate::chains::Chains;
use crate::runs::has_ended;
use rma_record::Item;
use rma_types::{Action, Call, Step};

/// The call of a number.
pub(crate) fn call_at(calls: &[Call], call: usize) -> Option<&Call>
    ensures { option_copied result ≡ slice_get calls.now call }
{
    calls.get(call)
}

/// Whether a call moves no data.
fn moves_nothing(call: &Call) -> bool
    ensures { result ≡ is_none (transfer_of call.now) }
{
    match call.action() {
        Action::Moves(_) => false,
        _ => true,
    }
}

/// Whether an entry ends the call that made it.
fn entry_ends(step: Step, entered: &Call) -> bool
    ensures { result ≡ ends_call step entered.now }
{
    match step {
        Step::Arrive => false,
        Step::Leave => true,
        Step::One => moves_nothing(entered),
    }
}

/// Whether an item ends the call of a number.
fn ends(calls: &[Call], call: usize, item: &Item) -> bool
    ensures { result ≡ does_end calls.now call item.now }
{
    match item {
        Item::Issue { call: other, .. }
        | Item::Null { call: other }
        | Item::Flush { call: other }
        | Item::Request { call: other }
        | Item::Tested { call: other, .. }
        | Item::Refused { call: other, .. } => *other as usize == call,
        Item::Entry {
            call: other,
            step,
            ..
        } => match call_at(calls, *other as usize) {
            Some(entered) => entry_ends(*step, entered) && *other as usize == call,
            None => false,
        },
        Item::Touch { .. } | Item::Ended => false,
    }
}

/// Whether an item ends the call of a number.
fn is_ended(calls: &[Call], items: &[Item], chains: &Chains, call: usize) -> bool
    requires call { call < length calls.now }
    requires chains { AreChains (length calls.now) items.now 0 chains.now.first.items
        chains.now.next.items }
    ensures { result ≡ list_any (does_end calls.now call) items.now }
{
    let mut at = chains.first(call);
    'links: while at < items.len() {
        if ends(calls, call, &items[at]) {
            return true;
        }
        at = chains.next(at);
    }
    false
}

/// The first call that no item ends.
fn first_left(calls: &[Call], items: &[Item], chains: &Chains) -> Option<usize>
    requires { AreChains (length calls.now) items.now 0 chains.now.first.items
        chains.now.next.items }
    ensures value { result ≡ first_left_of calls.now items.now }
    ensures within { IfSome result (λ call. call < length calls.now) }
{
    for call in 0..calls.len() {
        if !is_ended(calls, items, chains, call) {
            return Some(call);
        }
    }
    None
}

/// The call at which a rank stands, if it has not ended.
pub(crate) fn stands_at(calls: &[Call], items: &[Item], chains: &Chains) -> Option<usize>
    requires { AreChains (length calls.now) items.now 0 chains.now.first.items
        chains.now.next.items }
    ensures value { result ≡ standing_call calls.now items.now }
    ensures within { IfSome result (λ call. call < length calls.now) }
{
    if has_ended(items) {
        None
    } else {
        first_left(calls, items, chains)
    }
}
