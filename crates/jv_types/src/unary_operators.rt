//! Operators with one operand.

ghost use Rattle.std.specs.Prelude.{◌≡◌};
ghost use Rattle.jv_types.specs.Operators.{where_true, is_sign, is_step, unary_type, boolean_type, bad_type};

use crate::kinds::{is_boolean, is_numeric};
use crate::promotion::promoted;
use jv_instance::{Ty, TypeBase};

/// The type boolean.
pub(crate) const BOOLEAN: Ty = Ty {
    base: TypeBase::Boolean,
    dims: 0,
};

/// The type of what has a diagnostic already.
pub(crate) const BAD: Ty = Ty {
    base: TypeBase::Bad,
    dims: 0,
};

/// A type, where this holds.
pub(crate) fn where_true(holds: bool, t: Ty) -> Option<Ty>
    ensures { result ≡ where_true holds t }
{
    holds.then_some(t)
}

/// The type of an operator with one operand (JLS 15.14, 15.15), by the number of its token: `+`, `-` and `~` promote, `!` wants
/// boolean, `++` and `--` keep a numeric type. None where the operand does not fit; bad for a bad operand. Takes no memory.
pub fn unary(op: u8, t: Ty) -> Option<Ty>
    ensures { result ≡ unary_type op t }
{
    if t.is_bad() {
        return Some(BAD);
    }
    match op {
        28 | 29 | 16 => where_true(is_numeric(t), promoted(t, t)),
        15 => where_true(is_boolean(t), BOOLEAN),
        26 | 27 => where_true(is_numeric(t), t),
        _ => None,
    }
}
