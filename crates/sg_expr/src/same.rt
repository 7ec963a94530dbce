ghost use Rattle.std.specs.Prelude.{◌≡◌, ◌↔◌, IsTrue};
ghost use Rattle.sg_expr.specs.Tree.{expr_of};

use crate::expr::Expr;

impl Expr {
    /// Whether two expressions are the same, part by part, in the time of the smaller one's size.
    pub fn is_same(&self, other: &Expr) -> bool
        ensures { IsTrue result ↔ (expr_of self.now ≡ expr_of other.now) }
    {
        match self {
            Expr::Nothing => match other {
                Expr::Nothing => true,
                _ => false,
            },
            Expr::Empty => match other {
                Expr::Empty => true,
                _ => false,
            },
            Expr::One(l) => match other {
                Expr::One(m) => l.number() == m.number(),
                _ => false,
            },
            Expr::Seq(first, second) => match other {
                Expr::Seq(start, rest) => first.is_same(start) && second.is_same(rest),
                _ => false,
            },
            Expr::Alt(left, right) => match other {
                Expr::Alt(one, two) => left.is_same(one) && right.is_same(two),
                _ => false,
            },
            Expr::Star(inner) => match other {
                Expr::Star(again) => inner.is_same(again),
                _ => false,
            },
        }
    }
}
