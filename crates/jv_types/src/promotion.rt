//! Numeric promotion.

ghost use Rattle.std.specs.Prelude.{◌≡◌, IsTrue};
ghost use Rattle.jv_types.specs.Conversion.{is_numeric};
ghost use Rattle.jv_types.specs.Operators.{promoted};

use crate::kinds::width;
use jv_instance::{Ty, TypeBase};

/// The promoted type of two numeric ones (JLS 5.6.2): long where one of them is, and else int. Takes no memory.
pub fn promote(a: Ty, b: Ty) -> Ty
    requires numeric { IsTrue (is_numeric a) }
    requires both { IsTrue (is_numeric b) }
    ensures { result ≡ promoted a b }
{
    promoted(a, b)
}

/// The promoted type of two types, whatever they are.
pub(crate) fn promoted(a: Ty, b: Ty) -> Ty
    ensures { result ≡ promoted a b }
{
    let base = if width(a.base) == 3 || width(b.base) == 3 {
        TypeBase::Long
    } else {
        TypeBase::Int
    };
    Ty { base, dims: 0 }
}
