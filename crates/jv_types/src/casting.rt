//! Casts.

ghost use Rattle.std.specs.Prelude.{◌≡◌, ◌≤◌, ◌==◌, ◌&&◌};
ghost use Rattle.jv_types.specs.Conversion.{is_class_base, may_meet, either_way, are_castable_bare, element_side, lesser, are_castable};
ghost use Rattle.jv_types.specs.Side.{side_of};

use crate::assigning::assignable;
use crate::kinds::{is_numeric, is_reference};
use crate::side::Side;
use jv_instance::{Ty, TypeBase};
use sg_base::Scope;

/// Whether some class may be a subclass of both.
fn may_meet(a: Side<'_>, b: Side<'_>) -> bool
    ensures { result ≡ may_meet (side_of a.entry) (side_of b.entry) }
{
    (a.interface || b.interface) && ((a.interface || !a.is_final) && (b.interface || !b.is_final))
}

/// Whether one type may be assigned to the other.
fn either_way(a: Side<'_>, b: Side<'_>, object: Scope) -> bool
    ensures { result ≡ either_way object (side_of a.entry) (side_of b.entry) }
{
    assignable(a.ty, b.ty, a.up, object) || assignable(b.ty, a.ty, b.up, object)
}

/// Whether a type is a class or an interface.
fn is_class_type(t: Ty) -> bool
    ensures { result ≡ ((t.dims == 0) && is_class_base t.base) }
{
    t.dims == 0 && matches!(t.base, TypeBase::Class(_))
}

/// Whether types without common brackets may be cast to one another.
fn castable_bare(a: Side<'_>, b: Side<'_>, object: Scope) -> bool
    ensures { result ≡ are_castable_bare object (side_of a.entry) (side_of b.entry) }
{
    either_way(a, b, object)
        || ((is_numeric(a.ty) && is_numeric(b.ty))
            || (is_class_type(a.ty) && is_class_type(b.ty) && may_meet(a, b)))
}

/// A side without so many pairs of brackets.
fn element<'a>(n: u8, s: Side<'a>) -> Side<'a>
    requires { n ≤ s.ty.dims }
    ensures { side_of result ≡ element_side n (side_of s.entry) }
{
    Side {
        ty: Ty {
            base: s.ty.base,
            dims: s.ty.dims - n,
        },
        up: s.up,
        interface: s.interface,
        is_final: s.is_final,
    }
}

/// Whether a value of one type may be cast to the other (JLS 5.5): one may be assigned to the other, both are numeric, some class
/// may be a subclass of both, or both are arrays of reference types of which one may be cast to the other. Takes time in the
/// numbers of their supertypes, and no memory.
pub fn castable(from: Side<'_>, to: Side<'_>, object: Scope) -> bool
    ensures { result ≡ are_castable object (side_of from.entry) (side_of to.entry) }
{
    if castable_bare(from, to, object) {
        return true;
    }
    let common = from.ty.dims.min(to.ty.dims);
    let a = element(common, from);
    let b = element(common, to);
    (is_reference(a.ty) && is_reference(b.ty)) && castable_bare(a, b, object)
}
