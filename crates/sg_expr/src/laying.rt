//! How positions are laid out: one after another, the second of two parts first, so that what may come behind the first
//! part is known when its positions are laid.

ghost use Rattle.std.specs.Prelude.{◌≡◌, ◌+◌, ◌≤◌, length, OnOk};
ghost use Rattle.sg_expr.specs.Laying.{AreWithin, Lays, begin_at, first_at, is_live, is_nullable, places_of};
ghost use Rattle.sg_expr.specs.Tree.{expr_of};

use crate::expr::Expr;
use std::alloc::AllocError;

/// Whether the empty word belongs to an expression.
fn is_nullable(e: &Expr) -> bool
    ensures { result ≡ is_nullable (expr_of e.now) }
{
    e.nullable()
}

/// Whether some word belongs to an expression.
fn is_live(e: &Expr) -> bool
    ensures { result ≡ is_live (expr_of e.now) }
{
    e.live()
}

/// The positions with which the words of an expression begin whose positions are laid from a number on, and the number
/// behind its last position. Takes the time of the expression's size times its depth.
pub fn first_at(e: &Expr, from: usize) -> (u64, usize)
    requires { from + places_of (expr_of e.now) ≤ 63 }
    ensures first { result.0 ≡ first_at (expr_of e.now) from }
    ensures next { result.1 ≡ from + places_of (expr_of e.now) }
{
    match e {
        Expr::Nothing | Expr::Empty => (0, from),
        Expr::One(_) => (1 << from, from + 1),
        Expr::Seq(first, second) => {
            if !is_live(second) {
                return (0, from);
            }
            let (after, middle) = first_at(second, from);
            let (before, next) = first_at(first, middle);
            if is_nullable(first) {
                (before | after, next)
            } else {
                (before, next)
            }
        }
        Expr::Alt(left, right) => {
            let (one, middle) = first_at(left, from);
            let (other, next) = first_at(right, middle);
            (one | other, next)
        }
        Expr::Star(inner) => first_at(inner, from),
    }
}

/// The same set, and what is in another where the empty word belongs to the expression.
pub fn begin_at(e: &Expr, from: usize, rest: u64) -> u64
    requires { from + places_of (expr_of e.now) ≤ 63 }
    ensures { result ≡ begin_at (expr_of e.now) from rest }
{
    let (first, _) = first_at(e, from);
    if is_nullable(e) { first | rest } else { first }
}

/// Positions that are laid: for each what may come behind it, and for each label its positions.
#[derive(Drop)]
pub struct Laying {
    pub behind: Vec<u64>,
    pub places: [u64; 16],
}

impl Laying {
    /// Lays the positions of an expression, behind which may come what is in a set. Takes the time of the expression's
    /// size times the square of its depth.
    pub fn lay(&mut self, e: &Expr, rest: u64) -> Result<(), AllocError>
        requires room { length self.old.behind.items + places_of (expr_of e.now) ≤ 63 }
        requires within { AreWithin self.old.behind.items self.old.places }
        ensures { OnOk result (Lays (expr_of e.now) rest self.old.behind.items self.old.places self.new.behind.items self.new.places) }
    {
        match e {
            Expr::Nothing | Expr::Empty => Ok(()),
            Expr::One(l) => {
                let at = self.behind.len();
                self.behind.push(rest)?;
                self.places[usize::from(l.number())] |= 1 << at;
                Ok(())
            }
            Expr::Seq(first, second) => {
                if !is_live(second) {
                    return Ok(());
                }
                let after = begin_at(second, self.behind.len(), rest);
                self.lay(second, rest)?;
                self.lay(first, after)
            }
            Expr::Alt(left, right) => {
                self.lay(left, rest)?;
                self.lay(right, rest)
            }
            Expr::Star(inner) => {
                let (again, _) = first_at(inner, self.behind.len());
                self.lay(inner, again | rest)
            }
        }
    }
}
