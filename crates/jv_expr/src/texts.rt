//! The texts of operators and of pairs of types.

ghost use Rattle.std.specs.Prelude.{◌≡◌, ◌<◌, [], slice_index_or, IfOk};
ghost use Rattle.std.specs.String.{string_bytes};
ghost use Rattle.jv_lex.specs.Punctuation.{marks};
ghost use Rattle.jv_expr.specs.Operators.{operator_text, both_texts, choice_text};
ghost use Rattle.jv_expr.specs.Sites.{site_of};

use crate::faults::is_condition;
use crate::site::Site;
use jv_instance::Ty;
use std::alloc::{AllocError, Global};

/// The marks in the order of their numbers.
const MARKS: [&str; 50] = [
    "(", ")", "{", "}", "[", "]", ";", ",", ".", "...", "@", "::", "=", ">", "<", "!", "~", "?",
    ":", "->", "==", ">=", "<=", "!=", "&&", "||", "++", "--", "+", "-", "*", "/", "&", "|", "^",
    "%", "<<", ">>", ">>>", "+=", "-=", "*=", "/=", "&=", "|=", "^=", "%=", "<<=", ">>=", ">>>=",
];

/// The mark of a number.
fn mark(number: u8) -> &'static str
    requires { number < 50 }
    ensures { result.now ≡ slice_index_or marks number [] }
{
    MARKS[number as usize]
}

/// The mark of a number, and no text for a number that is none of a mark.
fn mark_or_none(number: u8) -> &'static str
    ensures { result.now ≡ slice_index_or marks number [] }
{
    if number >= 50 {
        return "";
    }
    mark(number)
}

/// An operator as it is written: `instanceof` for 153, brackets for an index, `?:` for the conditional, and else its mark.
pub(crate) fn operator_text(op: u8) -> &'static str
    ensures { result.now ≡ operator_text op }
{
    if op == 153 {
        "instanceof"
    } else if op == 50 {
        "[]"
    } else if op == 17 {
        "?:"
    } else {
        mark_or_none(op)
    }
}

/// Two types.
pub(crate) fn both_texts(
    alloc: Global,
    site: &Site<'_>,
    left: Ty,
    right: Ty,
) -> Result<String, AllocError>
    ensures { IfOk result (λ s. string_bytes s ≡ both_texts (site_of site.now) left right) }
{
    let mut text = site.layout.type_text(alloc, site.names, left)?;
    let other = site.layout.type_text(alloc, site.names, right)?;
    text.push_str(" and ")?;
    text.push_str(other.as_str())?;
    Ok(text)
}

/// What the diagnostic of a conditional names.
pub(crate) fn choice_text(
    alloc: Global,
    site: &Site<'_>,
    condition: Ty,
    left: Ty,
    right: Ty,
) -> Result<String, AllocError>
    ensures { IfOk result (λ s. string_bytes s ≡ choice_text (site_of site.now) condition left right) }
{
    if is_condition(condition) {
        both_texts(alloc, site, left, right)
    } else {
        site.layout.type_text(alloc, site.names, condition)
    }
}
