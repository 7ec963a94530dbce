//! The words that kinds of queries follow.

ghost use Rattle.std.specs.Prelude.{◌≡◌, ◌<◌, IfOk};
ghost use Rattle.sg_expr.specs.Tree.{expr_of, one_label, in_turn, either_of, repeated};
ghost use Rattle.jv_names.specs.Kinds.{above_or_own, of_file};

use jv_instance::labels;
use sg_base::Label;
use sg_expr::Expr;
use std::alloc::{AllocError, Global};

/// One label.
pub fn one_label(number: u8) -> Expr
    requires { number < 16 }
    ensures { expr_of result ≡ one_label number }
{
    Expr::One(Label::new(number))
}

/// The words of one expression, each followed by one of another.
pub fn in_turn(alloc: Global, first: Expr, second: Expr) -> Result<Expr, AllocError>
    ensures { IfOk result (λ r. expr_of r ≡ in_turn (expr_of first) (expr_of second)) }
{
    let first = Box::new(alloc, first)?;
    let second = Box::new(alloc, second)?;
    Ok(Expr::Seq(first, second))
}

/// The words of two expressions.
pub fn either_of(alloc: Global, left: Expr, right: Expr) -> Result<Expr, AllocError>
    ensures { IfOk result (λ r. expr_of r ≡ either_of (expr_of left) (expr_of right)) }
{
    let left = Box::new(alloc, left)?;
    let right = Box::new(alloc, right)?;
    Ok(Expr::Alt(left, right))
}

/// Any number of words of an expression in turn.
pub fn repeated(alloc: Global, inner: Expr) -> Result<Expr, AllocError>
    ensures { IfOk result (λ r. expr_of r ≡ repeated (expr_of inner)) }
{
    let inner = Box::new(alloc, inner)?;
    Ok(Expr::Star(inner))
}

/// Any number of supertypes, and then a label.
pub fn above_or_own(alloc: Global, label: u8) -> Result<Expr, AllocError>
    requires { label < 16 }
    ensures { IfOk result (λ r. expr_of r ≡ above_or_own label) }
{
    let above = repeated(alloc, one_label(labels::EXT))?;
    in_turn(alloc, above, one_label(label))
}

/// The types that a file sees by their simple names.
pub fn of_file(alloc: Global) -> Result<Expr, AllocError>
    ensures { IfOk result (λ r. expr_of r ≡ of_file) }
{
    let same_package = in_turn(alloc, one_label(labels::PKGOF), one_label(labels::TYPE))?;
    let on_demand = in_turn(alloc, one_label(labels::ODI), one_label(labels::TYPE))?;
    let beside = either_of(alloc, same_package, on_demand)?;
    let imported = either_of(alloc, one_label(labels::SIMP), beside)?;
    either_of(alloc, one_label(labels::SELF), imported)
}
