ghost use Rattle.std.specs.Prelude.{◌≡◌, ℕ, ◌<◌, ◌↔◌, ◌⊎◌, IsTrue};
ghost use Rattle.sg_base.specs.Label.{Has};

use crate::label::Label;
use std::marker::Model;

/// A set of labels.
#[derive(Clone, Copy, Debug, PartialEq, Eq, Hash)]
pub struct LabelSet {
    bits: u16,
}

impl Model for LabelSet {
    ghost use Rattle.std.specs.Prelude.{ℕ, ◌<◌};

    ghost Value = { ℕ };

    ghost view = { λ s. s.bits };

    ghost invariant = { λ s. s.bits < 65536 };

    ghost inverse = { λ n. record { bits = n } };
}

impl LabelSet {
    /// The set of no label.
    pub fn none() -> LabelSet
        ensures { (m : ℕ) → Has result m → ⊥ }
    {
        LabelSet { bits: 0 }
    }

    /// The set with one more label.
    pub fn with(self, l: Label) -> LabelSet
        ensures { (m : ℕ) → (Has result m) ↔ (Has self m ⊎ (m ≡ l)) }
    {
        LabelSet {
            bits: self.bits | (1 << l.number()),
        }
    }

    /// The labels of both sets.
    pub fn union(self, other: LabelSet) -> LabelSet
        ensures { (m : ℕ) → (Has result m) ↔ (Has self m ⊎ Has other m) }
    {
        LabelSet {
            bits: self.bits | other.bits,
        }
    }

    /// Whether a label is in the set.
    pub fn has(self, l: Label) -> bool
        ensures member { IsTrue result ↔ Has self l }
        ensures below { (m : ℕ) → Has self m → m < 16 }
    {
        (self.bits >> l.number()) & 1 == 1
    }
}
