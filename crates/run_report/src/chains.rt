//! The items of a log, gathered by their calls and by their accesses.
ghost use Rattle.std.specs.Prelude.{◌≡◌, ◌+◌, ◌<◌, ◌^◌, length, slice_index, IfOk};
ghost use Rattle.lawful_runs.specs.Items.{number_in};
ghost use Rattle.run_report.specs.Chains.{chain_of as chain_of_item, AreChains};

use rma_record::Item;
use std::alloc::{AllocError, Global};

/// The most calls, and the most items of a log, that have chains.
const MOST: usize = 4_294_967_295;

/// The items of a log in chains, each in the order of the log.
///
/// The first chains are those of the calls: chain `call` has the items that belong to the call of that number. Behind
/// them stand those of the accesses: chain `calls + index` has the touches of the access whose `Issue` has that index
/// in the log. A place is an index in the log, and the number of items ends a chain.
#[derive(Drop)]
pub(crate) struct Chains {
    first: Vec<u32>,
    next: Vec<u32>,
}

/// The number of the call to which an item belongs; a touch names the `Issue` of its access instead.
fn number_of(item: &Item) -> Option<u32>
    ensures { result ≡ number_in item.now }
{
    match item {
        Item::Issue { call, .. }
        | Item::Null { call }
        | Item::Flush { call }
        | Item::Request { call }
        | Item::Entry { call, .. }
        | Item::Tested { call, .. }
        | Item::Refused { call, .. } => Some(*call),
        Item::Touch { .. } | Item::Ended => None,
    }
}

/// The chain of an item, where there are so many calls.
fn chain_of(calls: usize, item: &Item) -> Option<usize>
    requires { calls < 2 ^ 32 }
    ensures { result ≡ chain_of_item calls item.now }
{
    if let Item::Touch { issue, .. } = item {
        return Some(calls + *issue as usize);
    }
    match number_of(item) {
        Some(number) => {
            if (number as usize) < calls {
                Some(number as usize)
            } else {
                None
            }
        }
        None => None,
    }
}

impl Chains {
    /// The chains of a log, where there are so many calls. Want of memory is answered too where there are more items or
    /// more calls than a place can number.
    pub(crate) fn of(alloc: Global, calls: usize, items: &[Item]) -> Result<Chains, AllocError>
        ensures { IfOk result
            (λ chains. AreChains calls items.now 0 chains.first.items chains.next.items) }
    {
        if calls > MOST || items.len() > MOST {
            return Err(AllocError);
        }
        let count = items.len() as u32;
        let mut chains = Chains {
            first: vec![in alloc; count; calls + items.len()]?,
            next: vec![in alloc; count; items.len()]?,
        };
        let mut at = items.len();
        while at > 0 {
            at -= 1;
            chains.put(calls, items, at);
        }
        Ok(chains)
    }

    /// Puts the item at a place before the others of its chain; all items behind it have been put.
    fn put(&mut self, calls: usize, items: &[Item], at: usize)
        requires at { at < length items.now }
        requires chains { AreChains calls items.now
            (at + 1) self.old.first.items self.old.next.items }
        ensures { AreChains calls items.now at self.new.first.items self.new.next.items }
    {
        if let Some(chain) = chain_of(calls, &items[at]) {
            if chain < self.first.len() {
                self.next[at] = self.first[chain];
                self.first[chain] = at as u32;
            }
        }
    }

    /// The place of the first item of a chain; the number of items where the chain has none.
    pub(crate) fn first(&self, chain: usize) -> usize
        requires { chain < length self.now.first.items }
        ensures { result ≡ slice_index self.now.first.items chain }
    {
        self.first[chain] as usize
    }

    /// The place of the item after the one at a place, in its chain; the number of items where there is none.
    pub(crate) fn next(&self, at: usize) -> usize
        requires { at < length self.now.next.items }
        ensures { result ≡ slice_index self.now.next.items at }
    {
        self.next[at] as usize
    }
}
