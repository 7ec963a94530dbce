//! Subtypes and assignment.

ghost use Rattle.std.specs.Prelude.{◌≡◌};
ghost use Rattle.jv_types.specs.Conversion.{is_above, is_subtype, widens, is_assignable};

use crate::kinds::{is_class, is_null, is_numeric, is_reference, is_type, width};
use jv_instance::{Ty, TypeBase};
use sg_base::Scope;

/// Whether a class is among the supertypes of another.
fn is_above(up: &[Scope], base: TypeBase) -> bool
    ensures { result ≡ is_above up.now base }
{
    match base {
        TypeBase::Class(s) => {
            for above in up {
                if s == *above {
                    return true;
                }
            }
            false
        }
        _ => false,
    }
}

/// Whether a reference type is a subtype of another (JLS 4.10): `up` are the supertypes of its class with itself, and `Object` for
/// an interface. Takes time in their number, and no memory.
pub fn subtype(from: Ty, to: Ty, up: &[Scope], object: Scope) -> bool
    ensures { result ≡ is_subtype up.now object from to }
{
    if to.dims < from.dims {
        is_class(object, to.base)
    } else {
        from.dims == to.dims && (matches!(from.base, TypeBase::Class(_)) && is_above(up, to.base))
    }
}

/// Whether a numeric type is widened to a wider one.
fn widens(from: Ty, to: Ty) -> bool
    ensures { result ≡ widens from to }
{
    is_numeric(from) && (is_numeric(to) && width(from.base) < width(to.base))
}

/// Whether a value of one type may be assigned to a variable of another (JLS 5.2): equal types, a wider numeric type, a supertype,
/// any reference type for `null`; and a bad type both ways. `up` are the supertypes of the first type's class with itself, and
/// `Object` for an interface. Takes time in their number, and no memory.
pub fn assignable(from: Ty, to: Ty, up: &[Scope], object: Scope) -> bool
    ensures { result ≡ is_assignable up.now object from to }
{
    (from.is_bad() || to.is_bad())
        || (is_type(from, to)
            || (widens(from, to)
                || ((is_null(from) && is_reference(to)) || subtype(from, to, up, object))))
}
