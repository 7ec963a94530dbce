//! Expressions made of others, in a short form: a part with no word or with the empty word alone adds nothing, so that
//! what is left of a plain expression behind its labels does not grow with them.

ghost use Rattle.std.specs.Prelude.{◌≡◌, ◌⊎◌, ◌↔◌, IfOk};
ghost use Rattle.sg_base.specs.Label.{Word};
ghost use Rattle.sg_expr.specs.Tree.{expr_of};
ghost use Rattle.sg_expr.specs.Word.{In, Splits, Chain};

use crate::expr::Expr;
use std::alloc::{AllocError, Global};

/// The words that split into a word of the first expression and a word of the second.
pub fn seq(alloc: Global, first: Expr, second: Expr) -> Result<Expr, AllocError>
    ensures { IfOk result (λ r. (w : Word) → (In (expr_of r) w) ↔ (Splits (In (expr_of first)) (In (expr_of second)) w)) }
{
    match (first, second) {
        (Expr::Nothing, _) => Ok(Expr::Nothing),
        (Expr::Empty, second) => Ok(second),
        (first, second) => Ok(Expr::Seq(Box::new(alloc, first)?, Box::new(alloc, second)?)),
    }
}

/// The words of either expression. Two equal expressions are one, so that what is left of nested stars does not double
/// with each label.
pub fn alt(alloc: Global, left: Expr, right: Expr) -> Result<Expr, AllocError>
    ensures words { IfOk result (λ r. (w : Word) → (In (expr_of r) w) ↔ (In (expr_of left) w ⊎ In (expr_of right) w)) }
    ensures once { IfOk result (λ r. expr_of left ≡ expr_of right → expr_of r ≡ expr_of left) }
{
    match (left, right) {
        (Expr::Nothing, right) => Ok(right),
        (left, Expr::Nothing) => Ok(left),
        (left, right) => {
            if left.is_same(&right) {
                return Ok(left);
            }
            Ok(Expr::Alt(Box::new(alloc, left)?, Box::new(alloc, right)?))
        }
    }
}

/// The chains of any number of words of an expression.
pub fn star(alloc: Global, inner: Expr) -> Result<Expr, AllocError>
    ensures { IfOk result (λ r. (w : Word) → (In (expr_of r) w) ↔ (Chain (In (expr_of inner)) w)) }
{
    Ok(Expr::Star(Box::new(alloc, inner)?))
}
