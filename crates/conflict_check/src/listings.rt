//! The accesses of a class that reach a region, by their places.
ghost use Rattle.std.specs.Prelude.{◌≡◌, ◌+◌, ◌++◌, ◌∷◌, [], false, IfOk, map, nat_lt, OnOk, true};
ghost use Rattle.std.specs.List.{All};
ghost use Rattle.std.specs.List.Sorted.{IsPartitionPoint};
ghost use Rattle.first_points.specs.Alike.{judged_by};
ghost use Rattle.first_points.specs.declared.accesses.JudgedPoints.{JudgedPoints as PointsValue};
ghost use Rattle.access_index.specs.Indexes.{HasAccesses};
ghost use Rattle.access_index.specs.Lists.{classes_in};
ghost use Rattle.conflict_check.specs.Listings.{IsAscending, IsListing, rows_of};
ghost use Rattle.conflict_check.specs.declared.listings.Listing.{Listing as ListingValue};

use access_index::{AccessIndex, Class, Group, Region};
use first_points::JudgedPoints;
use rma_types::{Items, NoMemory};
use std::alloc::Global;

/// The accesses of a class that reach a region, by their places.
#[derive(Debug, Drop)]
pub(crate) struct Listing {
    pub(crate) class: Class,
    pub(crate) places: Items<usize>,
}

/// How many of the accesses are of a smaller rank.
fn accesses_below(accesses: &[JudgedPoints], rank: u8) -> usize
    requires { IsAscending (map judged_by accesses.now) }
    ensures { IsPartitionPoint (λ (a : PointsValue). nat_lt a.id.rank rank ≡ true)
        (λ (a : PointsValue). nat_lt a.id.rank rank ≡ false) accesses.now result }
{
    accesses.partition_point(|a| a.id.rank < rank)
}

pub(crate) fn push_place(places: &mut Items<usize>, place: usize) -> Result<(), NoMemory>
    ensures { OnOk result (places.new ≡ places.old ++ place ∷ []) }
{
    match places.push(place) {
        Ok(()) => Ok(()),
        Err(_) => Err(NoMemory),
    }
}

/// The ordinals, counted from this one on.
fn moved_by(alloc: Global, ordinals: &[u32], from: usize) -> Result<Items<usize>, NoMemory>
    ensures { IfOk result (λ places. places ≡ map (λ o. from + o) ordinals.now) }
{
    let mut places: Items<usize> = Items::new(alloc);
    for ordinal in ordinals {
        let place = from.checked_add(*ordinal as usize).ok_or(NoMemory)?;
        push_place(&mut places, place)?;
    }
    Ok(places)
}

/// The accesses of a class that reach a region.
fn listing_of(
    alloc: Global,
    index: &AccessIndex,
    accesses: &[JudgedPoints],
    region: Region,
    class: Class,
) -> Result<Listing, NoMemory>
    requires ascending { IsAscending (map judged_by accesses.now) }
    requires index { HasAccesses index.now (rows_of (map judged_by accesses.now)) }
    ensures class { IfOk result (λ listing. listing.class ≡ class) }
    ensures places { IfOk result (λ listing. IsListing
        (map judged_by accesses.now) region class listing.places) }
{
    let from = accesses_below(accesses, class.rank);
    let places = moved_by(alloc, index.ordinals(Group { region, class }), from)?;
    Ok(Listing { class, places })
}

fn push_listing(listings: &mut Vec<Listing>, listing: Listing) -> Result<(), NoMemory>
    ensures { OnOk result (listings.new.items ≡ listings.old.items ++ listing ∷ []) }
{
    if listings.push(listing).is_err() {
        return Err(NoMemory);
    }
    Ok(())
}

/// The accesses that reach a region, by their classes.
pub(crate) fn listings_in(
    alloc: Global,
    index: &AccessIndex,
    accesses: &[JudgedPoints],
    region: Region,
) -> Result<Vec<Listing>, NoMemory>
    requires ascending { IsAscending (map judged_by accesses.now) }
    requires index { HasAccesses index.now (rows_of (map judged_by accesses.now)) }
    ensures classes { IfOk result (λ listings.
        map (λ (l : ListingValue). l.class) listings.items ≡ classes_in index.now.classes region) }
    ensures places { IfOk result (λ listings. All
        (λ (l : ListingValue). IsListing (map judged_by accesses.now) region l.class l.places) listings.items) }
{
    let mut listings: Vec<Listing> = Vec::new(alloc);
    for class in index.classes(region) {
        let listing = listing_of(alloc, index, accesses, region, *class)?;
        push_listing(&mut listings, listing)?;
    }
    Ok(listings)
}
