//! The set of listings: who waits for what, by need.

ghost use Rattle.std.specs.Prelude.{◌≡◌, ℕ, [], ◌<◌, ◌^◌, ◌⊎◌, ◌↔◌, IfOk, OnOk, OnErr};
ghost use Rattle.std.specs.List.{Contains};
ghost use Rattle.std.specs.Ordering.{nat_cmp};
ghost use Rattle.sg_base.specs.List.{IsRising};
ghost use Rattle.sg_state.specs.declared.need.Need.{Need as NeedOf};
ghost use Rattle.sg_state.specs.Need.{need_cmp};
ghost use Rattle.sg_waits.specs.declared.listing.Listing.{Listing as ListingOf};
ghost use Rattle.sg_waits.specs.Listing.{listing_cmp, AddsNeeds, AddsSome, TakesOff, Relists};

use crate::listing::Listing;
use sg_state::Need;
use std::alloc::{AllocError, Global};
use std::collections::BTreeSet;

/// Lists a unit for a need, unless it is one of those for which it is listed already. Costs a binary search among these,
/// and else a look-up.
pub fn add_one(
    listings: &mut BTreeSet<Listing>,
    need: Need,
    listed: &[Need],
    unit: u32,
) -> Result<(), AllocError>
    requires rising { IsRising listing_cmp listings.old.keys }
    requires listed_rise { IsRising need_cmp listed.now }
    requires there { Contains listed.now need → Contains listings.old.keys (record { need = need; unit = unit }) }
    ensures ok { OnOk result ((k : ListingOf) → (Contains listings.new.keys k) ↔ (Contains listings.old.keys k ⊎ (k ≡ record { need = need; unit = unit }))) }
    ensures err { OnErr result (listings.new.keys ≡ listings.old.keys) }
    ensures rising { IsRising listing_cmp listings.new.keys }
{
    if listed.binary_search(&need).is_ok() {
        return Ok(());
    }
    match listings.insert(Listing { need, unit }) {
        Ok(_) => Ok(()),
        Err(_) => Err(AllocError),
    }
}

/// Lists a unit for these needs beside those for which it is listed already. Costs a binary search for each, and a look-up
/// for each that is new. Where memory is wanting, some of them may be listed.
pub fn add(
    listings: &mut BTreeSet<Listing>,
    needs: &[Need],
    listed: &[Need],
    unit: u32,
) -> Result<(), AllocError>
    requires rising { IsRising listing_cmp listings.old.keys }
    requires listed_rise { IsRising need_cmp listed.now }
    requires there { (n : NeedOf) → Contains listed.now n → Contains listings.old.keys (record { need = n; unit = unit }) }
    ensures ok { OnOk result (AddsNeeds listings.old.keys listings.new.keys needs.now unit) }
    ensures some { AddsSome listings.old.keys listings.new.keys needs.now unit }
    ensures rising { IsRising listing_cmp listings.new.keys }
{
    for need in needs {
        match add_one(listings, *need, listed, unit) {
            Ok(()) => {}
            Err(error) => return Err(error),
        }
    }
    Ok(())
}

/// Takes a unit off a need, unless that is to be kept. Costs a binary search and a look-up.
pub fn take_one(listings: &mut BTreeSet<Listing>, need: Need, keep: &[Need], unit: u32)
    requires rising { IsRising listing_cmp listings.old.keys }
    requires kept { IsRising need_cmp keep.now }
    ensures left { (k : ListingOf) → (Contains listings.new.keys k) ↔ (Contains listings.old.keys k × (k ≡ record { need = need; unit = unit } → Contains keep.now need)) }
    ensures rising { IsRising listing_cmp listings.new.keys }
{
    if keep.binary_search(&need).is_err() {
        listings.remove(&Listing { need, unit });
    }
}

/// Takes a unit off these needs, but for those to keep. Costs a binary search and a look-up for each.
pub fn take_off(listings: &mut BTreeSet<Listing>, needs: &[Need], keep: &[Need], unit: u32)
    requires rising { IsRising listing_cmp listings.old.keys }
    requires kept { IsRising need_cmp keep.now }
    ensures left { TakesOff listings.old.keys listings.new.keys needs.now keep.now unit }
    ensures rising { IsRising listing_cmp listings.new.keys }
{
    for need in needs {
        take_one(listings, *need, keep, unit);
    }
}

/// Lists a unit for these needs in place of those before. Costs a binary search for each need, of these and of those before,
/// and a look-up for each that only one of the two lists has. After want of memory nothing has changed.
pub fn change(
    listings: &mut BTreeSet<Listing>,
    before: &[Need],
    needs: &[Need],
    unit: u32,
) -> Result<(), AllocError>
    requires rising { IsRising listing_cmp listings.old.keys }
    requires before_rises { IsRising need_cmp before.now }
    requires needs_rise { IsRising need_cmp needs.now }
    requires listed { (n : NeedOf) → (Contains listings.old.keys (record { need = n; unit = unit })) ↔ (Contains before.now n) }
    ensures ok { OnOk result (Relists listings.old.keys listings.new.keys needs.now unit) }
    ensures rising { IsRising listing_cmp listings.new.keys }
    ensures err { OnErr result (listings.new.keys ≡ listings.old.keys) }
{
    match add(listings, needs, before, unit) {
        Ok(()) => {
            take_off(listings, before, needs, unit);
            Ok(())
        }
        Err(error) => {
            take_off(listings, needs, before, unit);
            Err(error)
        }
    }
}

/// Adds the units that are listed for a need, each by a look-up.
pub fn gather(
    listings: &BTreeSet<Listing>,
    need: &Need,
    found: &mut BTreeSet<u32>,
) -> Result<(), AllocError>
    requires few { (k : ListingOf) → Contains listings.now.keys k → k.unit < 2 ^ 32 }
    ensures ok { OnOk result ((u : ℕ) → (Contains found.new.keys u) ↔ (Contains found.old.keys u ⊎ Contains listings.now.keys (record { need = need.now; unit = u }))) }
{
    let first = Listing {
        need: *need,
        unit: 0,
    };
    let last = Listing {
        need: *need,
        unit: u32::MAX,
    };
    for listing in listings.range(first..=last) {
        match found.insert(listing.unit) {
            Ok(_) => {}
            Err(_) => return Err(AllocError),
        }
    }
    Ok(())
}

/// The units that are listed for one of these needs. Costs a look-up for each of the needs and for each unit found.
pub fn listed_for(
    alloc: Global,
    listings: &BTreeSet<Listing>,
    gone: &[Need],
) -> Result<BTreeSet<u32>, AllocError>
    requires few { (k : ListingOf) → Contains listings.now.keys k → k.unit < 2 ^ 32 }
    ensures ok { IfOk result (λ s. (u : ℕ) → (Contains s.keys u) ↔ ((n : NeedOf) × Contains gone.now n × Contains listings.now.keys (record { need = n; unit = u }))) }
    ensures rising { IfOk result (λ s. IsRising nat_cmp s.keys) }
{
    let mut found = BTreeSet::new(alloc);
    for need in gone {
        match gather(listings, need, &mut found) {
            Ok(()) => {}
            Err(error) => return Err(error),
        }
    }
    // For the proof alone, which takes from this call that the number of units fits its type.
    let _count = found.len();
    Ok(found)
}
