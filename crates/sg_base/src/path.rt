ghost use Rattle.std.specs.Prelude.{◌≡◌, refl};
ghost use Rattle.std.specs.Cmp.{partial_equiv_from_equiv, partial_order_from_agreeing_total, eq_by_cmp_equiv};
ghost use Rattle.std.specs.Ordering.{as_partial_cmp, eq_by_cmp};
ghost use Rattle.sg_base.specs.Path.{end_of, path_cmp, path_total};

use crate::scope::Scope;
use crate::step::Step;
use std::cmp::Ordering;
use std::marker::Model;

/// A path: where it starts, and its steps. Paths are ordered by start, then step by step by label number and target;
/// a prefix comes first.
#[derive(Debug, Drop)]
pub struct Path {
    start: Scope,
    steps: Vec<Step>,
}

impl Model for Path {
    ghost use Rattle.sg_base.specs.Path.{PathOf};

    ghost Value = { PathOf };

    ghost view = { λ p. record { start = p.start; steps = p.steps.items } };
}

impl Path {
    /// A path from its start and its steps.
    pub fn new(start: Scope, steps: Vec<Step>) -> Path
        ensures { result ≡ record { start = start; steps = steps.items } }
    {
        Path { start, steps }
    }

    /// The scope where the path starts.
    pub fn start(&self) -> Scope
        ensures { result ≡ self.now.start }
    {
        self.start
    }

    /// The steps of the path, first to last.
    pub fn steps(&self) -> &[Step]
        ensures { result.now ≡ self.now.steps }
    {
        self.steps.as_slice()
    }

    /// The scope where the path ends: the target of its last step, or its start where it has no step.
    pub fn end(&self) -> Scope
        ensures { result ≡ end_of self.now.start self.now.steps }
    {
        match self.steps.as_slice() {
            [] => self.start,
            [.., last] => last.to,
        }
    }
}

impl PartialEq for Path {
    ghost eq = { eq_by_cmp path_cmp };

    ghost laws = { partial_equiv_from_equiv (eq_by_cmp_equiv path_total) };

    fn eq(&self, other: &Path) -> bool {
        self.cmp(other) == Ordering::Equal
    }
}

impl Eq for Path {
    ghost laws = { eq_by_cmp_equiv path_total };
}

impl Ord for Path {
    ghost cmp = { path_cmp };

    ghost total = { path_total };

    ghost matches_partial_cmp = { λ _ _. refl };

    ghost matches_eq = { λ _ _. refl };

    fn cmp(&self, other: &Path) -> Ordering {
        self.start
            .cmp(&other.start)
            .then_with(|| self.steps.as_slice().cmp(other.steps.as_slice()))
    }
}

impl PartialOrd for Path {
    ghost partial_cmp = { as_partial_cmp path_cmp };

    ghost laws = { partial_order_from_agreeing_total path_cmp path_total (λ _ _. refl) (λ _ _. refl) };

    fn partial_cmp(&self, other: &Path) -> Option<Ordering> {
        Some(self.cmp(other))
    }
}
