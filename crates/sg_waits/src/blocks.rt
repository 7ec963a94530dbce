//! Which blocks of 256 units may have one that runs, so that the least is found without a look at each unit.

ghost use Rattle.std.specs.Prelude.{◌≡◌, ℕ, ◌+◌, ◌*◌, ◌/◌, ◌<◌, ◌≤◌, ◌^◌, true, length, replicate, slice_set, IfOk, IfSome, IfNone};
ghost use Rattle.sg_waits.specs.declared.status.Status.TheVariants.{Runs};
ghost use Rattle.sg_waits.specs.Block.{IsFirst, IsFirstOf, IsFlagged};
ghost use Rattle.sg_waits.specs.Waits.{IsLeastRunning, status_at};

use crate::status::Status;
use crate::units;
use std::alloc::{AllocError, Global};

const BLOCK: usize = 256;

/// The flags of so many units, all of them set.
pub fn all(alloc: Global, units: u32) -> Result<Vec<bool>, AllocError>
    ensures { IfOk result (λ v. v.items ≡ replicate (units / 256 + 1) true) }
{
    let flags = vec![in alloc; true; units as usize / BLOCK + 1]?;
    Ok(flags)
}

/// The first unit that runs, from a number on and below another.
fn first_in(units: &[Status], from: usize, to: usize) -> Option<u32>
    requires few { length units.now < 2 ^ 32 }
    requires within { to ≤ length units.now }
    ensures some { IfSome result (IsFirst units.now from to) }
    ensures none { IfNone result ((v : ℕ) → from ≤ v → v < to → status_at units.now v ≡ Runs → ⊥) }
{
    for unit in from..to {
        if units::runs(units, unit as u32) {
            return Some(unit as u32);
        }
    }
    None
}

/// The first unit of a block that runs. Looks at 256 units.
pub fn first_of(units: &[Status], block: usize) -> Option<u32>
    requires few { length units.now < 2 ^ 32 }
    requires block { block < 2 ^ 32 }
    ensures some { IfSome result (IsFirstOf units.now block) }
    ensures none { IfNone result ((v : ℕ) → 256 * block ≤ v → v < 256 * block + 256 → status_at units.now v ≡ Runs → ⊥) }
{
    let from = BLOCK * block;
    let to = units.len().min(from + BLOCK);
    first_in(units, from, to)
}

/// Sets the flag of a unit's block.
pub fn mark(flags: &mut Vec<bool>, unit: u32)
    requires { unit / 256 < length flags.old.items }
    ensures { flags.new.items ≡ slice_set flags.old.items (unit / 256) true }
{
    flags[unit as usize / BLOCK] = true;
}

/// Clears the flag of a unit's block, if none of the block runs.
pub fn refresh(units: &[Status], flags: &mut Vec<bool>, unit: u32)
    requires few { length units.now < 2 ^ 32 }
    requires flagged { IsFlagged units.now flags.old.items }
    requires unit { unit < length units.now }
    ensures { IsFlagged units.now flags.new.items }
{
    let block = unit as usize / BLOCK;
    match first_of(units, block) {
        Some(_) => {}
        None => flags[block] = false,
    }
}

/// The least unit that runs, if one does. Looks at a flag for each block of 256 units, and at the units of one block.
pub fn least(units: &[Status], flags: &[bool]) -> Option<u32>
    requires few { length units.now < 2 ^ 32 }
    requires flagged { IsFlagged units.now flags.now }
    ensures some { IfSome result (IsLeastRunning units.now) }
    ensures none { IfNone result ((u : ℕ) → status_at units.now u ≡ Runs → ⊥) }
{
    for block in 0..flags.len() {
        if flags[block] {
            match first_of(units, block) {
                Some(unit) => return Some(unit),
                None => {}
            }
        }
    }
    None
}
