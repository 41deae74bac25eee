//! The tokens that the slots keep.
ghost use Rattle.std.specs.HashMap.{spare};
ghost use Rattle.std.specs.Option.{option_map};
ghost use Rattle.std.specs.Prelude.{◌≡◌, ◌<◌, ◌≤◌, ◌+◌, ℕ, List, Option, Some, IfSome};
ghost use Rattle.entry_gains.specs.Plans.{plan_slot};
ghost use Rattle.entry_gains.specs.Slots.{front_at, AreFrom, IsFilled, joined};
ghost use Rattle.entry_gains.specs.Kept.{filled_with, gained_at, gained_from, has_slot_below, IsFilledBelow};
ghost use Rattle.entry_gains.specs.declared.slots.Slot.{Slot};

use crate::plans::Plan;
use crate::slots::Slot;
use cell_face::Token;
use std::alloc::Global;
use std::collections::HashMap;

/// One gift more in a slot.
fn fill<N: Token>(tokens: &mut HashMap<Slot, N>, slot: Slot, gift: N)
    requires room { 1 ≤ spare tokens.old }
    requires from { AreFrom N.origin (N.origin gift) tokens.old }
    ensures filled { IsFilled N.front tokens.old tokens.new slot (Some (N.front gift)) }
    ensures from { AreFrom N.origin (N.origin gift) tokens.new }
    ensures room { spare tokens.old ≤ spare tokens.new + 1 }
{
    match tokens.get_mut(&slot) {
        Some(kept) => kept.merge(gift),
        None => {
            let _ = tokens.insert(slot, gift);
        }
    }
}

/// A token with what the slot keeps.
fn copy_of<N: Token>(tokens: &mut HashMap<Slot, N>, slot: Slot) -> Option<N>
    ensures copied { option_map N.front result ≡ front_at N.front tokens.old slot }
    ensures origin { (name : List ℕ) →
        AreFrom N.origin name tokens.old → IfSome result (λ token. N.origin token ≡ name) }
    ensures kept { (other : Slot) → front_at N.front tokens.new other ≡
        front_at N.front tokens.old other }
    ensures from { (name : List ℕ) → AreFrom N.origin name tokens.old →
        AreFrom N.origin name tokens.new }
    ensures room { spare tokens.new ≡ spare tokens.old }
{
    let kept = tokens.get_mut(&slot)?;
    Some(kept.fork())
}

/// The gift of an entry in the slot of its plan at an index.
#[inline(always)]
fn fill_at<N: Token>(tokens: &mut HashMap<Slot, N>, plan: &Plan, at: u8, gift: &mut N)
    requires index { at < 32 }
    requires room { 1 ≤ spare tokens.old }
    requires from { AreFrom N.origin (N.origin gift.old) tokens.old }
    ensures filled { (before : Slot → Option (Option (List ℕ))) →
        IsFilledBelow at plan.now (N.front gift.old) before (front_at N.front tokens.old) →
        IsFilledBelow (at + 1) plan.now (N.front gift.old) before (front_at N.front tokens.new) }
    ensures from { AreFrom N.origin (N.origin gift.old) tokens.new }
    ensures room { spare tokens.old ≤ spare tokens.new + 1 }
    ensures front { N.front gift.new ≡ N.front gift.old }
    ensures origin { N.origin gift.new ≡ N.origin gift.old }
{
    match plan.slot(at) {
        None => {}
        Some(slot) => fill(tokens, slot, gift.fork()),
    }
}

/// The gift of an entry in each slot of its plan.
fn fill_all<N: Token>(tokens: &mut HashMap<Slot, N>, plan: &Plan, gift: N)
    requires room { 32 ≤ spare tokens.old }
    requires from { AreFrom N.origin (N.origin gift) tokens.old }
    ensures filled { IsFilledBelow 32 plan.now (N.front gift)
        (front_at N.front tokens.old) (front_at N.front tokens.new) }
    ensures from { AreFrom N.origin (N.origin gift) tokens.new }
{
    let mut gift = gift;
    let end = plan.end();
    for at in 0..end {
        fill_at(tokens, plan, at, &mut gift);
    }
}

/// The gift of an entry, if its rank gave one, in each slot of its plan.
pub(crate) fn fill_gift<N: Token>(tokens: &mut HashMap<Slot, N>, plan: &Plan, gift: Option<N>)
    requires room { 32 ≤ spare tokens.old }
    requires from { IfSome gift (λ token. AreFrom N.origin (N.origin token) tokens.old) }
    ensures filled { (slot : Slot) → front_at N.front tokens.new slot ≡ joined
        (front_at N.front tokens.old slot)
        (filled_with (has_slot_below 32 plan.now slot) (option_map N.front gift)) }
    ensures from { (name : List ℕ) → IfSome gift (λ token. N.origin token ≡ name) →
        AreFrom N.origin name tokens.old → AreFrom N.origin name tokens.new }
{
    match gift {
        None => {}
        Some(gift) => fill_all(tokens, plan, gift),
    }
}

/// Two tokens together, where there are two. The root tells where both are from.
fn merged<N: Token>(all: Option<N>, more: Option<N>, root: &N) -> Option<N>
    requires all { IfSome all (λ token. N.origin token ≡ N.origin root.now) }
    requires more { IfSome more (λ token. N.origin token ≡ N.origin root.now) }
    ensures front { option_map N.front result ≡
        joined (option_map N.front all) (option_map N.front more) }
    ensures origin { IfSome result (λ token. N.origin token ≡ N.origin root.now) }
{
    let _ = root;
    match all {
        None => more,
        Some(mut all) => {
            if let Some(more) = more {
                all.merge(more);
            }
            Some(all)
        }
    }
}

/// What was gathered so far, and what the slot of the plan at an index keeps.
#[inline(always)]
fn gather_at<N: Token>(
    tokens: &mut HashMap<Slot, N>,
    plan: &Plan,
    at: u8,
    all: Option<N>,
    root: &N,
) -> Option<N>
    requires index { at < 32 }
    requires from { AreFrom N.origin (N.origin root.now) tokens.old }
    requires all { IfSome all (λ token. N.origin token ≡ N.origin root.now) }
    ensures gathered { option_map N.front result ≡
        joined (option_map N.front all) (gained_at (front_at N.front tokens.old) (plan_slot plan.now at)) }
    ensures origin { IfSome result (λ token. N.origin token ≡ N.origin root.now) }
    ensures kept { (slot : Slot) → front_at N.front tokens.new slot ≡
        front_at N.front tokens.old slot }
    ensures from { AreFrom N.origin (N.origin root.now) tokens.new }
    ensures room { spare tokens.new ≡ spare tokens.old }
{
    match plan.slot(at) {
        None => all,
        Some(slot) => merged(all, copy_of(tokens, slot), root),
    }
}

/// What the slots of a plan keep, together. The root tells where the tokens are from.
pub(crate) fn gather<N: Token>(tokens: &mut HashMap<Slot, N>, plan: &Plan, root: &N) -> Option<N>
    requires from { AreFrom N.origin (N.origin root.now) tokens.old }
    ensures gathered { option_map N.front result ≡
        gained_from (front_at N.front tokens.old) (plan_slot plan.now) }
    ensures origin { IfSome result (λ token. N.origin token ≡ N.origin root.now) }
    ensures kept { (slot : Slot) → front_at N.front tokens.new slot ≡
        front_at N.front tokens.old slot }
    ensures from { AreFrom N.origin (N.origin root.now) tokens.new }
    ensures room { spare tokens.new ≡ spare tokens.old }
{
    let mut all = None;
    let end = plan.end();
    for at in 0..end {
        all = gather_at(tokens, plan, at, all, root);
    }
    all
}
