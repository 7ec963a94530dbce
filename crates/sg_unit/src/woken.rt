ghost use Rattle.std.specs.Prelude.{◌≡◌};

use std::marker::Model;

/// Units that an operation lets go on, which contracts see as the list of their numbers.
#[derive(Debug, Drop)]
pub struct Woken {
    units: Vec<u32>,
}

impl Model for Woken {
    ghost use Rattle.std.specs.Prelude.{List, ℕ};

    ghost Value = { List ℕ };

    ghost view = { λ w. w.units.items };
}

impl Woken {
    /// These units. Takes no memory.
    pub fn new(units: Vec<u32>) -> Woken
        ensures { result ≡ units.items }
    {
        Woken { units }
    }

    /// The units, first to last.
    pub fn as_slice(&self) -> &[u32]
        ensures { result.now ≡ self.now }
    {
        self.units.as_slice()
    }

    /// The units as a vector, without taking memory.
    pub fn into_vec(self) -> Vec<u32>
        ensures { result.items ≡ self }
    {
        self.units
    }
}
