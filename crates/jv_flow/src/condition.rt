//! Conditions that are literals.

ghost use Rattle.std.specs.Prelude.{◌≡◌};
ghost use Rattle.std.specs.Option.{option_map};
ghost use Rattle.jv_tree.specs.ExprTree.{expr_tree};
ghost use Rattle.jv_flow.specs.Condition.{is_false, is_true, literal_of, optional_literal};

use jv_tree::{Expr, ExprKind};

/// The value of a condition that is the literal `true` or `false`, also in parentheses; any other has none (JLS 14.21).
pub(crate) fn literal(condition: &Expr) -> Option<bool>
    ensures { result ≡ literal_of (expr_tree condition.now) }
{
    match &condition.kind {
        ExprKind::Bool(value) => Some(*value),
        _ => None,
    }
}

/// The same of the condition of a `for`, where one that is left out counts as `true` (JLS 14.14.1).
pub(crate) fn literal_or_true(condition: &Option<Expr>) -> Option<bool>
    ensures { result ≡ optional_literal (option_map expr_tree condition.now) }
{
    match condition {
        None => Some(true),
        Some(condition) => literal(condition),
    }
}

/// A condition is the literal `true`.
pub(crate) fn is_always(literal: Option<bool>) -> bool
    ensures { result ≡ is_true literal }
{
    match literal {
        Some(value) => value,
        None => false,
    }
}

/// A condition is the literal `false`.
pub(crate) fn is_never(literal: Option<bool>) -> bool
    ensures { result ≡ is_false literal }
{
    match literal {
        Some(value) => !value,
        None => false,
    }
}
