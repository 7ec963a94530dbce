ghost use Rattle.std.specs.Prelude.{◌≡◌, filter, IfOk};
ghost use Rattle.sg_waits.specs.Waits.{status_at, waits};

use crate::status::Status;
use crate::units;
use std::alloc::{AllocError, Global};
use std::collections::BTreeSet;
use std::marker::Model;

/// The units that an event made runnable, which contracts see as their list.
#[derive(Debug, Drop)]
pub struct Woken {
    units: Vec<u32>,
}

impl Model for Woken {
    ghost use Rattle.std.specs.Prelude.{List, ℕ};

    ghost Value = { List ℕ };

    ghost view = { λ w. w.units.items };
}

impl Woken {
    /// The units of a set that wait, in rising order.
    pub(crate) fn of(
        alloc: Global,
        set: &BTreeSet<u32>,
        table: &[Status],
    ) -> Result<Woken, AllocError>
        ensures { IfOk result (λ w. w ≡ filter (λ u. waits (status_at table.now u)) set.now.keys) }
    {
        let mut units = Vec::new(alloc);
        for unit in set {
            if units::waits(table, *unit) {
                units.push(*unit)?;
            }
        }
        Ok(Woken { units })
    }

    /// The units in rising order.
    pub fn as_slice(&self) -> &[u32]
        ensures { result.now ≡ self.now }
    {
        self.units.as_slice()
    }

    /// The units as a vector, without taking memory.
    pub fn into_vec(self) -> Vec<u32>
        ensures { result.items ≡ self }
    {
        self.units
    }
}
