//! The order of paths that share their fronts, by their places.

ghost use Rattle.std.specs.Prelude.{◌≡◌, ◌<◌, ◌↔◌, ◌⊎◌, List, [], ◌∷◌, length, IsTrue};
ghost use Rattle.sg_base.specs.declared.step.Step.{Step as StepOf};
ghost use Rattle.sg_base.specs.PathTree.{path_at, BeginsWith};
ghost use Rattle.sg_order.specs.Order.{precedes};
ghost use Rattle.sg_order.specs.Path.{IsPathBefore};

use crate::order::Order;
use sg_base::{Mark, PathTree, Step};

impl Order {
    /// Whether the path at the first place comes before the one at the second: after their longest common prefix, its
    /// mark does. Takes no memory, and the time of the steps behind their common front.
    pub fn place_before(&self, tree: &PathTree, p: usize, q: usize) -> bool
        requires first { p < length tree.now.paths }
        requires second { q < length tree.now.paths }
        ensures { IsTrue result ↔ IsPathBefore (precedes self.now) (path_at tree.now.paths p) (path_at tree.now.paths q) }
    {
        let m = tree.steps_len(p);
        let n = tree.steps_len(q);
        let shared = m.min(n);
        let (mut i, behind_p) = tree.front(p, shared);
        let (mut j, behind_q) = tree.front(q, shared);
        let mut before = self.longer_before(behind_p, behind_q);
        while i != j {
            match tree.last(i) {
                None => return before,
                Some((a, x)) => match tree.last(j) {
                    None => return before,
                    Some((b, y)) => {
                        before = self.step_before(x, y, before);
                        i = a;
                        j = b;
                    }
                },
            }
        }
        before
    }

    /// Whether the first of two rests comes before the second, by their first steps, where one of them has no step.
    fn longer_before(&self, x: Option<Step>, y: Option<Step>) -> bool
        ensures { (xs ys : List StepOf) → BeginsWith xs x → BeginsWith ys y → (xs ≡ []) ⊎ (ys ≡ []) → IsTrue result ↔ IsPathBefore (precedes self.now) xs ys }
    {
        match x {
            Some(step) => self.before(Mark::Of(step.label), Mark::End),
            None => match y {
                Some(step) => self.before(Mark::End, Mark::Of(step.label)),
                None => false,
            },
        }
    }

    /// Whether the first of two paths comes before the second, by their first steps and by whether what is behind the
    /// first of these comes before what is behind the second.
    fn step_before(&self, x: Step, y: Step, before: bool) -> bool
        ensures { (xs ys : List StepOf) → (IsTrue before ↔ IsPathBefore (precedes self.now) xs ys) → IsTrue result ↔ IsPathBefore (precedes self.now) (x ∷ xs) (y ∷ ys) }
    {
        if x.label.number() != y.label.number() {
            self.before(Mark::Of(x.label), Mark::Of(y.label))
        } else if x.to != y.to {
            false
        } else {
            before
        }
    }
}
