//! The forms of expressions: which may be variables, which is `this`, and which is a name without parentheses.

ghost use Rattle.std.specs.Prelude.{◌≡◌, None, Some, MatchOption};
ghost use Rattle.jv_tree.specs.ExprTree.{expr_tree};
ghost use Rattle.jv_tree.specs.TypeTree.{ids_of};
ghost use Rattle.jv_expr.specs.Typed.{is_this, is_variable, plain_name};

use jv_names::start_of;
use jv_tree::{Expr, ExprKind, Name};

/// Whether an expression may be a variable by its form: a name, a field, or an element of an array (JLS 15.1).
pub(crate) fn is_variable(e: &Expr) -> bool
    ensures { result ≡ is_variable (expr_tree e.now) }
{
    match &e.kind {
        ExprKind::Int => false,
        ExprKind::Long => false,
        ExprKind::Char => false,
        ExprKind::Str => false,
        ExprKind::Bool(_) => false,
        ExprKind::Null => false,
        ExprKind::This => false,
        ExprKind::Name(_) => true,
        ExprKind::Field(_, _) => true,
        ExprKind::SuperField(_) => true,
        ExprKind::Call(_, _, _) => false,
        ExprKind::Index(_, _) => true,
        ExprKind::New(_, _) => false,
        ExprKind::NewArray(_, _) => false,
        ExprKind::NewList(_, _) => false,
        ExprKind::Pre(_, _, _) => false,
        ExprKind::Post(_, _, _) => false,
        ExprKind::Chain(_, _) => false,
        ExprKind::Cast(_, _) => false,
        ExprKind::Cond(_, _, _) => false,
        ExprKind::Assign(_, _, _, _) => false,
    }
}

/// Whether an expression is `this`.
pub(crate) fn is_this(e: &Expr) -> bool
    ensures { result ≡ is_this (expr_tree e.now) }
{
    match &e.kind {
        ExprKind::Int => false,
        ExprKind::Long => false,
        ExprKind::Char => false,
        ExprKind::Str => false,
        ExprKind::Bool(_) => false,
        ExprKind::Null => false,
        ExprKind::This => true,
        ExprKind::Name(_) => false,
        ExprKind::Field(_, _) => false,
        ExprKind::SuperField(_) => false,
        ExprKind::Call(_, _, _) => false,
        ExprKind::Index(_, _) => false,
        ExprKind::New(_, _) => false,
        ExprKind::NewArray(_, _) => false,
        ExprKind::NewList(_, _) => false,
        ExprKind::Pre(_, _, _) => false,
        ExprKind::Post(_, _, _) => false,
        ExprKind::Chain(_, _) => false,
        ExprKind::Cast(_, _) => false,
        ExprKind::Cond(_, _, _) => false,
        ExprKind::Assign(_, _, _, _) => false,
    }
}

/// The name that an expression is, where it stands in no parentheses.
pub(crate) fn plain_name(e: &Expr) -> Option<&Name>
    ensures { MatchOption result (plain_name (expr_tree e.now) ≡ None) (λ n. plain_name (expr_tree e.now) ≡ Some (ids_of n.now)) }
{
    match &e.kind {
        ExprKind::Int => None,
        ExprKind::Long => None,
        ExprKind::Char => None,
        ExprKind::Str => None,
        ExprKind::Bool(_) => None,
        ExprKind::Null => None,
        ExprKind::This => None,
        ExprKind::Name(name) => {
            if e.at == start_of(name.ids.as_slice()) {
                Some(name)
            } else {
                None
            }
        },
        ExprKind::Field(_, _) => None,
        ExprKind::SuperField(_) => None,
        ExprKind::Call(_, _, _) => None,
        ExprKind::Index(_, _) => None,
        ExprKind::New(_, _) => None,
        ExprKind::NewArray(_, _) => None,
        ExprKind::NewList(_, _) => None,
        ExprKind::Pre(_, _, _) => None,
        ExprKind::Post(_, _, _) => None,
        ExprKind::Chain(_, _) => None,
        ExprKind::Cast(_, _) => None,
        ExprKind::Cond(_, _, _) => None,
        ExprKind::Assign(_, _, _, _) => None,
    }
}
