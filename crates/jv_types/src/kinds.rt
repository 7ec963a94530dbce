//! Kinds of types.

ghost use Rattle.std.specs.Prelude.{◌≡◌};
ghost use Rattle.jv_types.specs.Conversion.{is_class, is_reference, width, is_numeric, is_null, is_base, is_type};
ghost use Rattle.jv_types.specs.Operators.{is_boolean, is_void, is_string, is_reference_or_null};

use jv_instance::{Ty, TypeBase};
use sg_base::Scope;

/// Whether a type is a class, an interface or an array (JLS 4.3).
pub fn is_reference(t: Ty) -> bool
    ensures { result ≡ is_reference t }
{
    t.dims > 0 || matches!(t.base, TypeBase::Class(_))
}

/// How wide a numeric type is, and 0 for other types.
pub(crate) fn width(base: TypeBase) -> u8
    ensures { result ≡ width base }
{
    match base {
        TypeBase::Char => 1,
        TypeBase::Int => 2,
        TypeBase::Long => 3,
        _ => 0,
    }
}

/// Whether a type is char, int or long (JLS 4.2).
pub fn is_numeric(t: Ty) -> bool
    ensures { result ≡ is_numeric t }
{
    t.dims == 0 && width(t.base) > 0
}

/// Whether a type is that of `null`.
pub(crate) fn is_null(t: Ty) -> bool
    ensures { result ≡ is_null t }
{
    t.dims == 0 && matches!(t.base, TypeBase::Null)
}

/// Whether a type is boolean.
pub(crate) fn is_boolean(t: Ty) -> bool
    ensures { result ≡ is_boolean t }
{
    t.dims == 0 && matches!(t.base, TypeBase::Boolean)
}

/// Whether a type is that of what gives no value.
pub(crate) fn is_void(t: Ty) -> bool
    ensures { result ≡ is_void t }
{
    t.dims == 0 && matches!(t.base, TypeBase::Void)
}

/// Whether a type is the class `String`.
pub(crate) fn is_string(string: Scope, t: Ty) -> bool
    ensures { result ≡ is_string string t }
{
    t.dims == 0 && is_class(string, t.base)
}

/// Whether a class is this one.
pub(crate) fn is_class(class: Scope, base: TypeBase) -> bool
    ensures { result ≡ is_class class base }
{
    match base {
        TypeBase::Class(s) => s == class,
        _ => false,
    }
}

/// Whether a type is a reference type or that of `null`.
pub(crate) fn is_reference_or_null(t: Ty) -> bool
    ensures { result ≡ is_reference_or_null t }
{
    is_reference(t) || is_null(t)
}

/// Whether two types have one base.
fn is_base(a: TypeBase, b: TypeBase) -> bool
    ensures { result ≡ is_base a b }
{
    match (a, b) {
        (TypeBase::Boolean, TypeBase::Boolean) => true,
        (TypeBase::Char, TypeBase::Char) => true,
        (TypeBase::Int, TypeBase::Int) => true,
        (TypeBase::Long, TypeBase::Long) => true,
        (TypeBase::Class(s), TypeBase::Class(t)) => s == t,
        (TypeBase::Null, TypeBase::Null) => true,
        (TypeBase::Void, TypeBase::Void) => true,
        (TypeBase::Bad, TypeBase::Bad) => true,
        _ => false,
    }
}

/// Whether two types are the same.
pub fn is_type(a: Ty, b: Ty) -> bool
    ensures { result ≡ is_type a b }
{
    is_base(a.base, b.base) && a.dims == b.dims
}
