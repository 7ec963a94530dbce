//! What the static members come to that a file's static imports bring.

ghost use Rattle.std.specs.Prelude.{◌≡◌};
ghost use Rattle.jv_expr.specs.Imported.{brought_meaning};

use jv_names::{Ends, Meaning};

/// What a name means by the distinct members of it that imports bring: one, none, or several.
pub(crate) fn brought_meaning(ends: &Ends) -> Meaning
    ensures { result ≡ brought_meaning ends.now }
{
    match ends {
        Ends::TooMany => Meaning::TooMany,
        Ends::Scopes(members) => match members.as_slice() {
            [] => Meaning::Nothing,
            [member] => Meaning::One(*member),
            _ => Meaning::Ambiguous,
        },
    }
}
