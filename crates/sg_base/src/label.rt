ghost use Rattle.std.specs.Prelude.{◌≡◌, ◌<◌};

use std::marker::Model;

/// A label of an edge, which contracts see as its number, from 0 to 15.
#[derive(Clone, Copy, Debug, PartialEq, Eq, PartialOrd, Ord, Hash)]
pub struct Label {
    number: u8,
}

impl Model for Label {
    ghost use Rattle.std.specs.Prelude.{ℕ, ◌<◌};

    ghost Value = { ℕ };

    ghost view = { λ l. l.number };

    ghost invariant = { λ l. l.number < 16 };

    ghost inverse = { λ n. record { number = n } };
}

impl Label {
    /// The label with a number.
    pub fn new(n: u8) -> Label
        requires { n < 16 }
        ensures { result ≡ n }
    {
        Label { number: n }
    }

    /// The label's number.
    pub fn number(self) -> u8
        ensures value { result ≡ self }
        ensures below { result < 16 }
    {
        self.number
    }
}
