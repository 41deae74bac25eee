//! Places among the accesses of parts, one part after another.
ghost use Rattle.std.specs.Prelude.{◌≡◌, ◌<◌, ◌^◌, ◌++◌, [], ◌∷◌, length, map, slice_get, slice_set, Some, IfSome};
ghost use Rattle.std.specs.Prelude.{OnOk, OnErr};
ghost use Rattle.std.specs.List.{position, remove};
ghost use Rattle.delivery_queue.specs.declared.begun.Begun.{Begun as BegunOne};
ghost use Rattle.delivery_queue.specs.Blocks.{ones_in, accesses_of, IsPlace};
ghost use Rattle.delivery_queue.specs.Soughts.{is_sought};

use crate::begun::Begun;
use crate::parts::Part;
use crate::sought::Sought;
use rank_rules::PendingAccess;
use rma_types::NoMemory;
use std::alloc::Global;

/// Where an access stands: its part, and its offset there.
#[derive(Clone, Copy, Debug)]
struct Place {
    part: usize,
    offset: usize,
}

/// The place of the first access that is sought.
pub(crate) fn first<P: Part>(parts: &[P], sought: &Sought) -> Option<usize>
    requires { length (ones_in P.ones parts.now) < 2 ^ 64 }
    ensures place { result ≡ position (is_sought sought.now)
        (accesses_of (ones_in P.ones parts.now)) }
    ensures within { IfSome result (λ at. at < length (ones_in P.ones parts.now)) }
{
    let mut before = 0usize;
    for part in parts {
        match part.first(sought) {
            Some(offset) => return Some(before + offset),
            None => before += part.len(),
        }
    }
    None
}

fn place_of<P: Part>(parts: &[P], at: usize) -> Place
    requires { at < length (ones_in P.ones parts.now) }
    ensures { IsPlace (map P.ones parts.now) at result.part result.offset }
{
    let mut offset = at;
    for part in 0..parts.len() {
        let len = parts[part].len();
        if offset < len {
            return Place { part, offset };
        }
        offset -= len;
    }
    unreachable!()
}

/// The access at a place.
pub(crate) fn begun_at<P: Part>(parts: &[P], at: usize) -> Begun
    requires { at < length (ones_in P.ones parts.now) }
    ensures { slice_get (ones_in P.ones parts.now) at ≡ Some result }
{
    let place = place_of(parts, at);
    parts[place.part].at(place.offset)
}

/// So many elements of the access at a place are touched.
pub(crate) fn touch_at<P: Part>(parts: &mut Vec<P>, at: usize, count: u32)
    requires { at < length (ones_in P.ones parts.old.items) }
    ensures { (one : BegunOne) → slice_get (ones_in P.ones parts.old.items) at ≡ Some one →
        ones_in P.ones parts.new.items ≡
        slice_set (ones_in P.ones parts.old.items) at (record { access = one.access; touched = count }) }
{
    let place = place_of(parts, at);
    parts[place.part].touch(place.offset, count);
}

/// The access at a place goes. `true` where its part has other marks now.
pub(crate) fn remove_at<P: Part>(parts: &mut Vec<P>, at: usize) -> bool
    requires { at < length (ones_in P.ones parts.old.items) }
    ensures { ones_in P.ones parts.new.items ≡ remove (ones_in P.ones parts.old.items) at }
{
    let place = place_of(parts, at);
    let before = parts[place.part].marks();
    parts[place.part].remove(place.offset);
    let changed = parts[place.part].marks() != before;
    drop_empty(parts, place.part);
    changed
}

/// A part without accesses goes, unless it is the last one.
fn drop_empty<P: Part>(parts: &mut Vec<P>, part: usize)
    requires { part < length parts.old.items }
    ensures { ones_in P.ones parts.new.items ≡ ones_in P.ones parts.old.items }
{
    if parts[part].len() == 0 && part + 1 < parts.len() {
        parts.remove(part);
    }
}

/// One access more, of which nothing is touched. `Err` changes nothing.
pub(crate) fn push_to<P: Part>(parts: &mut Vec<P>, access: PendingAccess) -> Result<(), NoMemory>
    ensures ok { OnOk result (ones_in P.ones parts.new.items ≡
        ones_in P.ones parts.old.items ++ record { access = access; touched = 0 } ∷ []) }
    ensures err { OnErr result (ones_in P.ones parts.new.items ≡ ones_in P.ones parts.old.items) }
{
    let count = parts.len();
    if 0 < count && !parts[count - 1].is_full() {
        parts[count - 1].push(access)?;
        Ok(())
    } else {
        push_part(parts, access)
    }
}

/// One access more, in a part of its own. `Err` changes nothing.
fn push_part<P: Part>(parts: &mut Vec<P>, access: PendingAccess) -> Result<(), NoMemory>
    ensures ok { OnOk result (ones_in P.ones parts.new.items ≡
        ones_in P.ones parts.old.items ++ record { access = access; touched = 0 } ∷ []) }
    ensures err { OnErr result (ones_in P.ones parts.new.items ≡ ones_in P.ones parts.old.items) }
{
    let alloc: Global = *parts.allocator();
    let mut part = P::new(alloc);
    part.push(access)?;
    parts.reserve(1).map_err(|_| NoMemory)?;
    parts.push_reserved(part);
    Ok(())
}
