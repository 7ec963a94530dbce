ghost use Rattle.std.specs.Prelude.{◌≡◌, ◌≢◌, ℕ, ◌-◌, ◌≤◌, [], ◌∷◌, ◌↔◌, IsTrue, IfOk};
ghost use Rattle.std.specs.Option.{SomeIff};
ghost use Rattle.sg_base.specs.Label.{Has, Word};
ghost use Rattle.sg_expr.specs.Tree.{expr_of};
ghost use Rattle.sg_expr.specs.Word.{In, ones_of};

use crate::build::{alt, seq, star};
use sg_base::{Label, LabelSet};
use std::alloc::{AllocError, Global};

/// A path expression: a regular expression over labels. `Nothing` has no word, and `Empty` has the empty word alone.
#[derive(Debug, Drop)]
pub enum Expr {
    Nothing,
    Empty,
    One(Label),
    Seq(Box<Expr>, Box<Expr>),
    Alt(Box<Expr>, Box<Expr>),
    Star(Box<Expr>),
}

/// An expression owns its parts alone, so it may move to another thread and be shared by several.
unsafe impl Send for Expr {}

unsafe impl Sync for Expr {}

impl Expr {
    /// Whether the empty word belongs, in the time of the expression's size.
    pub fn nullable(&self) -> bool
        ensures { IsTrue result ↔ In (expr_of self.now) [] }
    {
        match self {
            Expr::Nothing => false,
            Expr::Empty => true,
            Expr::One(_) => false,
            Expr::Seq(first, second) => first.nullable() && second.nullable(),
            Expr::Alt(left, right) => left.nullable() || right.nullable(),
            Expr::Star(_) => true,
        }
    }

    /// Whether some word belongs, in the time of the expression's size.
    pub fn live(&self) -> bool
        ensures { IsTrue result ↔ ((w : Word) × In (expr_of self.now) w) }
    {
        match self {
            Expr::Nothing => false,
            Expr::Empty => true,
            Expr::One(_) => true,
            Expr::Seq(first, second) => first.live() && second.live(),
            Expr::Alt(left, right) => left.live() || right.live(),
            Expr::Star(_) => true,
        }
    }

    /// Whether some word that is not empty belongs, in the time of the expression's size times its depth.
    pub fn goes_on(&self) -> bool
        ensures { IsTrue result ↔ ((w : Word) × (w ≢ []) × In (expr_of self.now) w) }
    {
        match self {
            Expr::Nothing => false,
            Expr::Empty => false,
            Expr::One(_) => true,
            Expr::Seq(first, second) => {
                (first.goes_on() && second.live()) || (first.live() && second.goes_on())
            }
            Expr::Alt(left, right) => left.goes_on() || right.goes_on(),
            Expr::Star(inner) => inner.goes_on(),
        }
    }

    /// The first labels of the words that belong, in the time of the expression's size times its depth.
    pub fn heads(&self) -> LabelSet
        ensures { (l : ℕ) → (Has result l) ↔ ((w : Word) × In (expr_of self.now) (l ∷ w)) }
    {
        match self {
            Expr::Nothing => LabelSet::none(),
            Expr::Empty => LabelSet::none(),
            Expr::One(l) => LabelSet::none().with(*l),
            Expr::Seq(first, second) => {
                if !second.live() {
                    return LabelSet::none();
                }
                if first.nullable() {
                    first.heads().union(second.heads())
                } else {
                    first.heads()
                }
            }
            Expr::Alt(left, right) => left.heads().union(right.heads()),
            Expr::Star(inner) => inner.heads(),
        }
    }

    /// Whether at most `n` labels stand in the expression, each counted as often as it stands there, in the time of
    /// the expression's size.
    pub fn names_at_most(&self, n: usize) -> bool
        ensures { IsTrue result ↔ (ones_of (expr_of self.now) ≤ n) }
    {
        self.left_of(n).is_some()
    }

    /// How many of `n` labels are left where each label of the expression takes one.
    fn left_of(&self, n: usize) -> Option<usize>
        ensures { SomeIff result (ones_of (expr_of self.now) ≤ n) (n - ones_of (expr_of self.now)) }
    {
        match self {
            Expr::Nothing | Expr::Empty => Some(n),
            Expr::One(_) => n.checked_sub(1),
            Expr::Seq(first, second) | Expr::Alt(first, second) => second.left_of(first.left_of(
                n,
            )?),
            Expr::Star(inner) => inner.left_of(n),
        }
    }

    /// A copy, in the time and memory of the expression's size.
    pub fn copy(&self, alloc: Global) -> Result<Expr, AllocError>
        ensures { IfOk result (λ r. expr_of r ≡ expr_of self.now) }
    {
        match self {
            Expr::Nothing => Ok(Expr::Nothing),
            Expr::Empty => Ok(Expr::Empty),
            Expr::One(l) => Ok(Expr::One(*l)),
            Expr::Seq(first, second) => {
                let first = Box::new(alloc, first.copy(alloc)?)?;
                let second = Box::new(alloc, second.copy(alloc)?)?;
                Ok(Expr::Seq(first, second))
            }
            Expr::Alt(left, right) => {
                let left = Box::new(alloc, left.copy(alloc)?)?;
                let right = Box::new(alloc, right.copy(alloc)?)?;
                Ok(Expr::Alt(left, right))
            }
            Expr::Star(inner) => {
                let inner = Box::new(alloc, inner.copy(alloc)?)?;
                Ok(Expr::Star(inner))
            }
        }
    }

    /// The words `w` such that `l` followed by `w` belongs.
    pub fn after(&self, alloc: Global, l: Label) -> Result<Expr, AllocError>
        ensures { IfOk result (λ r. (w : Word) → (In (expr_of r) w) ↔ (In (expr_of self.now) (l ∷ w))) }
    {
        match self {
            Expr::Nothing => Ok(Expr::Nothing),
            Expr::Empty => Ok(Expr::Nothing),
            Expr::One(m) => {
                if m.number() == l.number() {
                    Ok(Expr::Empty)
                } else {
                    Ok(Expr::Nothing)
                }
            }
            Expr::Seq(first, second) => {
                let begun = first.after(alloc, l)?;
                let rest = second.copy(alloc)?;
                let inside = seq(alloc, begun, rest)?;
                if first.nullable() {
                    let behind = second.after(alloc, l)?;
                    alt(alloc, inside, behind)
                } else {
                    Ok(inside)
                }
            }
            Expr::Alt(left, right) => {
                let left = left.after(alloc, l)?;
                let right = right.after(alloc, l)?;
                alt(alloc, left, right)
            }
            Expr::Star(inner) => {
                let begun = inner.after(alloc, l)?;
                let again = inner.copy(alloc)?;
                let again = star(alloc, again)?;
                seq(alloc, begun, again)
            }
        }
    }
}
