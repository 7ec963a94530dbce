ghost use Rattle.std.specs.Prelude.{◌≡◌, ◌↔◌, IsTrue, MatchResult};
ghost use Rattle.sg_base.specs.declared.mark.Mark.{Mark as MarkOf};
ghost use Rattle.sg_order.specs.Mark.{IsLeastLoop};
ghost use Rattle.sg_order.specs.Order.{precedes, IsOrderOf, IsStrict};
ghost use Rattle.sg_order.specs.Path.{IsPathBefore};

use crate::not_strict::NotStrict;
use crate::relation::{MARKS, closure, mark_at, number_of};
use sg_base::{Mark, Path, Step};
use std::marker::Model;

/// A strict order of marks: no mark comes before itself, and what comes before a mark comes before all behind it.
#[derive(Debug, Drop)]
pub struct Order {
    rows: [u32; MARKS],
}

impl Model for Order {
    ghost use Rattle.std.specs.Prelude.{List, ℕ};
    ghost use Rattle.sg_order.specs.Order.{IsStrict, precedes};

    ghost Value = { List ℕ };

    ghost view = { λ o. o.rows };

    ghost invariant = { λ o. IsStrict (precedes o.rows) };
}

impl Order {
    /// The transitive closure of the pairs, in the time of 17 steps for each pair. Takes no memory. Pairs that rise in
    /// some rank of marks are always an order (`laws::rising_pairs_are_strict`).
    pub fn new(pairs: &[(Mark, Mark)]) -> Result<Order, NotStrict>
        ensures { MatchResult result (λ o. IsOrderOf pairs.now o) (λ e. IsLeastLoop pairs.now e.mark) }
    {
        let rows = closure(pairs);
        for i in 0..MARKS {
            if (rows[i] >> i) & 1 == 1 {
                return Err(NotStrict { mark: mark_at(i) });
            }
        }
        Ok(Order { rows })
    }

    /// Whether the first mark comes before the second.
    pub fn before(&self, a: Mark, b: Mark) -> bool
        ensures answer { result ≡ precedes self.now a b }
        ensures strict { IsStrict (precedes self.now) }
    {
        (self.rows[number_of(a)] >> number_of(b)) & 1 == 1
    }

    /// Whether no mark comes before another, by a look at 17 rows.
    pub fn is_empty(&self) -> bool
        ensures { IsTrue result ↔ ((a b : MarkOf) → IsTrue (precedes self.now a b) → ⊥) }
    {
        for i in 0..MARKS {
            if self.rows[i] != 0 {
                return false;
            }
        }
        true
    }

    /// Whether the first path comes before the second: after their longest common prefix, its mark does. Two targets
    /// of one label make paths incomparable. Takes the time of the common prefix.
    pub fn path_before(&self, p: &Path, q: &Path) -> bool
        requires { p.now.start ≡ q.now.start }
        ensures { IsTrue result ↔ IsPathBefore (precedes self.now) p.now.steps q.now.steps }
    {
        self.steps_before(p.steps(), q.steps())
    }

    fn steps_before(&self, p: &[Step], q: &[Step]) -> bool
        ensures { IsTrue result ↔ IsPathBefore (precedes self.now) p.now q.now }
    {
        let shared = p.len().min(q.len());
        for i in 0..shared {
            let x = p[i];
            let y = q[i];
            if x.label.number() != y.label.number() {
                return self.before(Mark::Of(x.label), Mark::Of(y.label));
            }
            if x.to != y.to {
                return false;
            }
        }
        if shared < p.len() {
            self.before(Mark::Of(p[shared].label), Mark::End)
        } else if shared < q.len() {
            self.before(Mark::End, Mark::Of(q[shared].label))
        } else {
            false
        }
    }
}
