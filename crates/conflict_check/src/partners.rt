//! The least partner of each access.
ghost use Rattle.std.specs.Prelude.{◌≡◌, ◌<◌, IfOk, length, map, OnOk};
ghost use Rattle.std.specs.List.{All};
ghost use Rattle.vector_clocks.specs.Marks.{before_in};
ghost use Rattle.access_index.specs.Indexes.{HasAccesses};
ghost use Rattle.access_sweeps.specs.Places.{ArePartners, NoneRises};
ghost use Rattle.conflict_check.specs.Listings.{AreDone, AreLeast, IsAscending, IsDone, IsListing, judged_of, rows_of};
ghost use Rattle.conflict_check.specs.declared.listings.Listing.{Listing as ListingValue};

use crate::conflicts::{by_operation, do_conflict};
use crate::judged::Judged;
use crate::listings::{Listing, listings_in, push_place};
use access_index::{AccessIndex, Region};
use access_sweeps::{Sweep, sweep_lists};
use rma_types::{Items, NoMemory};
use std::alloc::Global;

/// The accesses of the second listing get their least partners of the first.
fn sweep_pair(s: &Judged<'_>, region: Region, a: &Listing, b: &Listing, best: &mut [usize])
    requires ascending { IsAscending (judged_of s.now) }
    requires first { IsListing (judged_of s.now) region a.now.class a.now.places }
    requires second { IsListing (judged_of s.now) region b.now.class b.now.places }
    requires best { length best.old ≡ length s.now.accesses.now }
    ensures long { length best.new ≡ length best.old }
    ensures falls { NoneRises best.old best.new }
    ensures partners { ArePartners s.now.model (before_in s.now.clocks.now)
        (judged_of s.now) best.old →
        ArePartners s.now.model (before_in s.now.clocks.now) (judged_of s.now) best.new }
    ensures done { AreDone s.now region best.new a.now b.now }
{
    if a.class.rank <= b.class.rank && do_conflict(s.model, region, a.class, b.class) {
        let lists = Sweep {
            clocks: s.clocks,
            accesses: s.accesses,
            first: a.places.as_slice(),
            second: b.places.as_slice(),
            by_operation: by_operation(a.class, b.class),
        };
        sweep_lists(&lists, best);
    }
}

/// The accesses of all listings get their least partners of one.
fn sweep_from(s: &Judged<'_>, region: Region, a: &Listing, listings: &[Listing], best: &mut [usize])
    requires ascending { IsAscending (judged_of s.now) }
    requires first { IsListing (judged_of s.now) region a.now.class a.now.places }
    requires listings { All (λ (l : ListingValue). IsListing
        (judged_of s.now) region l.class l.places) listings.now }
    requires best { length best.old ≡ length s.now.accesses.now }
    ensures long { length best.new ≡ length best.old }
    ensures falls { NoneRises best.old best.new }
    ensures partners { ArePartners s.now.model (before_in s.now.clocks.now)
        (judged_of s.now) best.old →
        ArePartners s.now.model (before_in s.now.clocks.now) (judged_of s.now) best.new }
    ensures done { All (λ (b : ListingValue). AreDone s.now region best.new a.now b) listings.now }
{
    for b in listings {
        sweep_pair(s, region, a, b, best);
    }
}

/// The accesses of all listings get their least partners.
fn sweep_all(s: &Judged<'_>, region: Region, listings: &[Listing], best: &mut [usize])
    requires ascending { IsAscending (judged_of s.now) }
    requires listings { All (λ (l : ListingValue). IsListing
        (judged_of s.now) region l.class l.places) listings.now }
    requires best { length best.old ≡ length s.now.accesses.now }
    ensures long { length best.new ≡ length best.old }
    ensures falls { NoneRises best.old best.new }
    ensures partners { ArePartners s.now.model (before_in s.now.clocks.now)
        (judged_of s.now) best.old →
        ArePartners s.now.model (before_in s.now.clocks.now) (judged_of s.now) best.new }
    ensures done { All (λ (a : ListingValue). All
        (λ (b : ListingValue). AreDone s.now region best.new a b)
        listings.now) listings.now }
{
    for a in listings {
        sweep_from(s, region, a, listings, best);
    }
}

/// The accesses that reach a region get their least partners there.
fn sweep_region(
    alloc: Global,
    s: &Judged<'_>,
    index: &AccessIndex,
    region: Region,
    best: &mut [usize],
) -> Result<(), NoMemory>
    requires ascending { IsAscending (judged_of s.now) }
    requires index { HasAccesses index.now (rows_of (judged_of s.now)) }
    requires best { length best.old ≡ length s.now.accesses.now }
    ensures long { length best.new ≡ length best.old }
    ensures falls { NoneRises best.old best.new }
    ensures partners { ArePartners s.now.model (before_in s.now.clocks.now)
        (judged_of s.now) best.old →
        ArePartners s.now.model (before_in s.now.clocks.now) (judged_of s.now) best.new }
    ensures done { OnOk result (IsDone s.now best.new region) }
{
    let listings = listings_in(alloc, index, s.accesses, region)?;
    sweep_all(s, region, listings.as_slice(), best);
    Ok(())
}

/// The accesses get their least partners in all regions.
fn sweep_regions(
    alloc: Global,
    s: &Judged<'_>,
    index: &AccessIndex,
    best: &mut [usize],
) -> Result<(), NoMemory>
    requires ascending { IsAscending (judged_of s.now) }
    requires index { HasAccesses index.now (rows_of (judged_of s.now)) }
    requires best { length best.old ≡ length s.now.accesses.now }
    ensures long { length best.new ≡ length best.old }
    ensures partners { ArePartners s.now.model (before_in s.now.clocks.now)
        (judged_of s.now) best.old →
        ArePartners s.now.model (before_in s.now.clocks.now) (judged_of s.now) best.new }
    ensures least { OnOk result (AreLeast s.now best.new) }
{
    for region in index.regions() {
        sweep_region(alloc, s, index, *region, best)?;
    }
    Ok(())
}

/// Each access as its own partner.
fn no_partners(alloc: Global, s: &Judged<'_>) -> Result<Items<usize>, NoMemory>
    ensures long { IfOk result (λ best. length best ≡ length s.now.accesses.now) }
    ensures partners { IfOk result (λ best.
        ArePartners s.now.model (before_in s.now.clocks.now) (judged_of s.now) best) }
{
    let mut best: Items<usize> = Items::new(alloc);
    for at in 0..s.accesses.len() {
        push_place(&mut best, at)?;
    }
    Ok(best)
}

/// The place of the least partner of each access, or its own where it has none.
pub(crate) fn least_partners(
    alloc: Global,
    s: &Judged<'_>,
    index: &AccessIndex,
) -> Result<Vec<usize>, NoMemory>
    requires ascending { IsAscending (judged_of s.now) }
    requires index { HasAccesses index.now (rows_of (judged_of s.now)) }
    ensures long { IfOk result (λ best. length best.items ≡ length s.now.accesses.now) }
    ensures partners { IfOk result (λ best.
        ArePartners s.now.model (before_in s.now.clocks.now) (judged_of s.now) best.items) }
    ensures least { IfOk result (λ best. AreLeast s.now best.items) }
{
    let mut best = no_partners(alloc, s)?.into_vec();
    sweep_regions(alloc, s, index, best.as_mut_slice())?;
    Ok(best)
}
