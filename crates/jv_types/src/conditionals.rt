//! The conditional operator.

ghost use Rattle.std.specs.Prelude.{◌≡◌};
ghost use Rattle.jv_types.specs.Operators.{wider, conditional_type};
ghost use Rattle.jv_types.specs.Side.{side_of};

use crate::assigning::subtype;
use crate::binary_operators::are_numeric;
use crate::kinds::{is_null, is_reference, is_type, is_void};
use crate::promotion::promoted;
use crate::side::Side;
use crate::unary_operators::BAD;
use jv_instance::Ty;
use sg_base::Scope;

/// The wider of two types of which one is null or a subtype of the other.
fn wider(a: Side<'_>, b: Side<'_>, object: Scope) -> Option<Ty>
    ensures { result ≡ wider (side_of a.entry) (side_of b.entry) object }
{
    if is_reference(b.ty) && (is_null(a.ty) || subtype(a.ty, b.ty, a.up, object)) {
        return Some(b.ty);
    }
    if is_reference(a.ty) && (is_null(b.ty) || subtype(b.ty, a.ty, b.up, object)) {
        return Some(a.ty);
    }
    None
}

/// The type of a conditional by those of its branches (JLS 15.25): equal types, two numeric ones, or reference types of which one
/// is null or a subtype of the other. None where the branches do not fit; bad where one of them is. Takes time in the numbers of
/// their supertypes, and no memory.
pub fn conditional(a: Side<'_>, b: Side<'_>, object: Scope) -> Option<Ty>
    ensures { result ≡ conditional_type (side_of a.entry) (side_of b.entry) object }
{
    if a.ty.is_bad() || b.ty.is_bad() {
        return Some(BAD);
    }
    if is_void(a.ty) || is_void(b.ty) {
        return None;
    }
    if is_type(a.ty, b.ty) {
        return Some(a.ty);
    }
    if are_numeric(a.ty, b.ty) {
        return Some(promoted(a.ty, b.ty));
    }
    wider(a, b, object)
}
