//! Operators with two operands.

ghost use Rattle.std.specs.Prelude.{◌≡◌};
ghost use Rattle.jv_types.specs.Operators.{are_numeric, are_boolean, are_comparable, are_joined, sum_type, bitwise_type, binary_type};
ghost use Rattle.jv_types.specs.Side.{side_of};

use crate::casting::castable;
use crate::kinds::{
    is_boolean, is_numeric, is_reference, is_reference_or_null, is_string, is_void,
};
use crate::promotion::promoted;
use crate::side::Side;
use crate::unary_operators::{BAD, BOOLEAN, where_true};
use jv_instance::{Ty, TypeBase};
use sg_base::Scope;

/// Whether two types are numeric.
pub(crate) fn are_numeric(a: Ty, b: Ty) -> bool
    ensures { result ≡ are_numeric a b }
{
    is_numeric(a) && is_numeric(b)
}

/// Whether two types are boolean.
fn are_boolean(a: Ty, b: Ty) -> bool
    ensures { result ≡ are_boolean a b }
{
    is_boolean(a) && is_boolean(b)
}

/// Whether `==` compares two operands.
fn are_comparable(a: Side<'_>, b: Side<'_>, object: Scope) -> bool
    ensures { result ≡ are_comparable object (side_of a.entry) (side_of b.entry) }
{
    are_numeric(a.ty, b.ty)
        || (are_boolean(a.ty, b.ty)
            || ((is_reference_or_null(a.ty) && is_reference_or_null(b.ty))
                && castable(a, b, object)))
}

/// The type of `+`.
fn sum_type(string: Scope, a: Ty, b: Ty) -> Option<Ty>
    ensures { result ≡ sum_type string a b }
{
    if (is_string(string, a) && !is_void(b)) || (is_string(string, b) && !is_void(a)) {
        return Some(Ty {
            base: TypeBase::Class(string),
            dims: 0,
        });
    }
    where_true(are_numeric(a, b), promoted(a, b))
}

/// The type of `&`, `^` and `|`.
fn bitwise_type(a: Ty, b: Ty) -> Option<Ty>
    ensures { result ≡ bitwise_type a b }
{
    if are_boolean(a, b) {
        return Some(BOOLEAN);
    }
    where_true(are_numeric(a, b), promoted(a, b))
}

/// The type of an operator with two operands (JLS 15.17 to 15.24), by the number of its token, 153 for `instanceof`, whose second
/// operand is a type. None where the operands do not fit; bad where one of them is. Takes time in the numbers of their
/// supertypes, and no memory.
pub fn binary(op: u8, a: Side<'_>, b: Side<'_>, string: Scope, object: Scope) -> Option<Ty>
    ensures { result ≡ binary_type op (side_of a.entry) (side_of b.entry) string object }
{
    if a.ty.is_bad() || b.ty.is_bad() {
        return Some(BAD);
    }
    match op {
        28 => sum_type(string, a.ty, b.ty),
        30 | 31 | 35 | 29 => where_true(are_numeric(a.ty, b.ty), promoted(a.ty, b.ty)),
        36 | 37 | 38 => where_true(are_numeric(a.ty, b.ty), promoted(a.ty, a.ty)),
        13 | 14 | 21 | 22 => where_true(are_numeric(a.ty, b.ty), BOOLEAN),
        20 | 23 => where_true(are_comparable(a, b, object), BOOLEAN),
        32 | 33 | 34 => bitwise_type(a.ty, b.ty),
        24 | 25 => where_true(are_boolean(a.ty, b.ty), BOOLEAN),
        153 => where_true(is_reference_or_null(a.ty) && is_reference(b.ty), BOOLEAN),
        _ => None,
    }
}
