//! What the table of units says of one of them.

ghost use Rattle.std.specs.Prelude.{◌≡◌, replicate, IfOk};
ghost use Rattle.sg_base.specs.List.{IsRising};
ghost use Rattle.sg_state.specs.Need.{need_cmp};
ghost use Rattle.sg_waits.specs.declared.status.Status.TheVariants.{Runs};
ghost use Rattle.sg_waits.specs.Table.{listed_at};
ghost use Rattle.sg_waits.specs.Waits.{status_at, needs_at, is_live, runs, waits};

use crate::status::Status;
use sg_state::Need;
use std::alloc::{AllocError, Global};

/// A table of so many units, all of which run.
pub fn running(alloc: Global, units: u32) -> Result<Vec<Status>, AllocError>
    ensures { IfOk result (λ v. v.items ≡ replicate units Runs) }
{
    let mut list = Vec::new(alloc);
    for _unit in 0..units {
        match list.push(Status::Runs) {
            Ok(()) => {}
            Err(_) => return Err(AllocError),
        }
    }
    Ok(list)
}

/// What a unit needs, in rising order. Empty where it does not wait.
pub fn needs_at(units: &[Status], unit: u32) -> &[Need]
    ensures needs { result.now ≡ needs_at units.now unit }
    ensures rising { IsRising need_cmp result.now }
{
    match units.get(unit as usize) {
        Some(Status::Waits(needs)) => needs.as_slice(),
        Some(Status::Runs) => &[],
        Some(Status::Ended) => &[],
        None => &[],
    }
}

/// What a unit is listed for, in rising order, where the second table has how units stood when they last waited.
pub fn listed_at<'a>(units: &'a [Status], kept: &'a [Status], unit: u32) -> &'a [Need]
    ensures needs { result.now ≡ listed_at units.now kept.now unit }
    ensures rising { IsRising need_cmp result.now }
{
    match units.get(unit as usize) {
        Some(Status::Waits(needs)) => needs.as_slice(),
        Some(Status::Runs) => needs_at(kept, unit),
        Some(Status::Ended) => needs_at(kept, unit),
        None => needs_at(kept, unit),
    }
}

/// Whether a unit is one of the table that has not ended.
pub fn is_live(units: &[Status], unit: u32) -> bool
    ensures { result ≡ is_live (status_at units.now unit) }
{
    match units.get(unit as usize) {
        Some(Status::Waits(_)) => true,
        Some(Status::Runs) => true,
        Some(Status::Ended) => false,
        None => false,
    }
}

/// Whether a unit is live and does not wait.
pub fn runs(units: &[Status], unit: u32) -> bool
    ensures { result ≡ runs (status_at units.now unit) }
{
    match units.get(unit as usize) {
        Some(Status::Waits(_)) => false,
        Some(Status::Runs) => true,
        Some(Status::Ended) => false,
        None => false,
    }
}

/// Whether a unit waits.
pub fn waits(units: &[Status], unit: u32) -> bool
    ensures { result ≡ waits (status_at units.now unit) }
{
    match units.get(unit as usize) {
        Some(Status::Waits(_)) => true,
        Some(Status::Runs) => false,
        Some(Status::Ended) => false,
        None => false,
    }
}
