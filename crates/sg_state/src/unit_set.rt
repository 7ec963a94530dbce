ghost use Rattle.std.specs.Prelude.{◌≡◌, ℕ, [], ◌∷◌, ◌⊎◌, ◌↔◌, IfOk, OnOk, OnErr};
ghost use Rattle.std.specs.List.{Contains};
ghost use Rattle.std.specs.Ordering.{nat_cmp};
ghost use Rattle.sg_base.specs.List.{IsRising};

use std::alloc::{AllocError, Global};
use std::marker::Model;
use std::slice;

/// A set of units, which contracts see as their rising list. One unit lies in the value itself, and more of them in an
/// allocation.
#[derive(Drop)]
pub struct UnitSet {
    units: Units,
}

/// No unit, one, or a rising list.
#[derive(Drop)]
enum Units {
    None,
    One(u32),
    Many(Box<Vec<u32>>),
}

impl Model for UnitSet {
    ghost use Rattle.std.specs.Prelude.{List, ℕ};
    ghost use Rattle.std.specs.Ordering.{nat_cmp};
    ghost use Rattle.sg_base.specs.List.{IsRising};
    ghost use Rattle.sg_state.specs.UnitSet.{units_of};

    ghost Value = { List ℕ };

    ghost view = { λ s. units_of s.units };

    ghost invariant = { λ s. IsRising nat_cmp (units_of s.units) };
}

/// Two units in rising order.
fn pair(alloc: Global, low: u32, high: u32) -> Result<Box<Vec<u32>>, AllocError>
    ensures { IfOk result (λ b. b.value.items ≡ low ∷ high ∷ []) }
{
    let mut units = Vec::with_capacity(alloc, 2)?;
    units.push_reserved(low);
    units.push_reserved(high);
    Ok(Box::new(alloc, units)?)
}

impl UnitSet {
    /// The set of no unit.
    pub fn new() -> UnitSet
        ensures { result ≡ [] }
    {
        UnitSet { units: Units::None }
    }

    /// The units in rising order.
    pub fn as_slice(&self) -> &[u32]
        ensures all { result.now ≡ self.now }
        ensures rising { IsRising nat_cmp self.now }
    {
        match &self.units {
            Units::None => &[],
            Units::One(unit) => slice::from_ref(unit),
            Units::Many(units) => units.as_slice(),
        }
    }

    /// Adds a unit to the set, which may have it already. Finding its place takes a binary search, and the units
    /// above it are moved by one place.
    pub fn insert(&mut self, alloc: Global, unit: u32) -> Result<(), AllocError>
        ensures ok { OnOk result ((v : ℕ) → (Contains self.new v) ↔ (Contains self.old v ⊎ (v ≡ unit))) }
        ensures rising { IsRising nat_cmp self.new }
        ensures err { OnErr result (self.new ≡ self.old) }
    {
        match &mut self.units {
            Units::None => {
                self.units = Units::One(unit);
                Ok(())
            }
            Units::One(only) => {
                let one = *only;
                if one < unit {
                    self.units = Units::Many(pair(alloc, one, unit)?);
                } else if unit < one {
                    self.units = Units::Many(pair(alloc, unit, one)?);
                }
                Ok(())
            }
            Units::Many(units) => match units.binary_search(&unit) {
                Ok(_) => Ok(()),
                Err(at) => Ok(units.insert(at, unit)?),
            },
        }
    }

    /// Takes a unit out of the set, if it is there. Finding it takes a binary search, and the units above it are moved
    /// by one place.
    pub fn remove(&mut self, unit: u32)
        ensures left { (v : ℕ) → (Contains self.new v) ↔ (Contains self.old v × (v ≡ unit → ⊥)) }
        ensures rising { IsRising nat_cmp self.new }
    {
        match &mut self.units {
            Units::None => {}
            Units::One(only) => {
                if *only == unit {
                    self.units = Units::None;
                }
            }
            Units::Many(units) => match units.binary_search(&unit) {
                Ok(at) => {
                    units.remove(at);
                }
                Err(_) => {}
            },
        }
    }
}
