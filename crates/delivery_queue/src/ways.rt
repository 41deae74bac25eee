//! Which pending access gives way to which (MPI 3.1, section 11.7.2).
ghost use Rattle.std.specs.Prelude.{◌≡◌, ◌<◌, ◌≤◌, length, IfSome};
ghost use Rattle.delivery_queue.specs.Blocks.{accesses_of};
ghost use Rattle.delivery_queue.specs.Soughts.{is_sought, before};
ghost use Rattle.rank_rules.specs.declared.pending.PendingAccess.{PendingAccess as Access};
ghost use Rattle.rank_rules.specs.Pending.{gives_way, first_in_way as first_in_way_of, way as way_of};

use crate::parts::Part;
use crate::sought::{Sought, is_ordered_kind};
use rank_rules::PendingAccess;

/// The accesses to which a later one gives way.
fn in_way_of(later: &PendingAccess) -> Sought
    ensures { (earlier : Access) → is_sought result earlier ≡ gives_way later.now earlier }
{
    if is_ordered_kind(&later.access.kind) {
        Sought::OnCellsOf {
            access: later.access,
        }
    } else {
        Sought::Nothing
    }
}

/// What was found, if it stands before the place.
fn found_before(found: Option<usize>, at: usize) -> Option<usize>
    ensures place { result ≡ before at found }
    ensures earlier { IfSome result (λ other. other < at) }
{
    match found {
        Some(other) => { if other < at { Some(other) } else { None } }
        None => None,
    }
}

/// The place of the first earlier access to which the one at a place gives way.
pub(crate) fn first_in_way<P: Part>(ones: &P, at: usize) -> Option<usize>
    requires { at < length (P.ones ones.now) }
    ensures place { result ≡ first_in_way_of (accesses_of (P.ones ones.now)) at }
    ensures earlier { IfSome result (λ other. other < at) }
{
    let later = ones.at(at).access;
    let found = ones.first(&in_way_of(&later));
    found_before(found, at)
}

/// The place of the access to which the one at a place gives way in the end, directly or through others; its own where
/// it gives way to none.
#[tactic(auto, using(crate::proofs::GivenWays::way_step))]
pub(crate) fn way<P: Part>(ones: &P, at: usize) -> usize
    requires { at < length (P.ones ones.now) }
    ensures end { result ≡ way_of (accesses_of (P.ones ones.now)) at }
    ensures not_after { result ≤ at }
{
    match first_in_way(ones, at) {
        Some(earlier) => way(ones, earlier),
        None => at,
    }
}
