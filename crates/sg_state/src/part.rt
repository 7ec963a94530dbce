ghost use Rattle.std.specs.Prelude.{◌≡◌};

use sg_base::Scope;

/// A part of a row, by the number of its label: the targets whose datum has a key, or the rest.
#[derive(Clone, Copy, Debug, PartialEq, Eq, Hash)]
pub enum Part {
    Keyed(Scope, u8, u64),
    Rest(Scope, u8),
}

impl Part {
    ghost use Rattle.sg_state.specs.Part.{scope_of};

    /// The scope of the row.
    pub fn scope(&self) -> Scope
        ensures { result ≡ scope_of self.now }
    {
        match self {
            Part::Keyed(s, _label, _key) => *s,
            Part::Rest(s, _label) => *s,
        }
    }
}
