ghost use Rattle.std.specs.Prelude.{◌≡◌, ◌≤◌, ◌<◌, ◌==◌, ◌↔◌, length, map, IfOk};
ghost use Rattle.std.specs.Arc.{arc_value};
ghost use Rattle.std.specs.List.{AllByRecursion};
ghost use Rattle.sg_base.specs.Label.{Word};
ghost use Rattle.sg_expr.specs.Positions.{Accepts, first_of};
ghost use Rattle.sg_expr.specs.Tree.{expr_of};
ghost use Rattle.sg_expr.specs.Word.{In, ones_of};
ghost use Rattle.sg_query.specs.Kinds.{ArePositions};
ghost use Rattle.sg_query.specs.Query.{kind_of, value_of_kind};

use crate::kind::Kind;
use sg_expr::Positions;
use std::alloc::{AllocError, Global};
use std::marker::Model;
use std::sync::Arc;

/// A table of kinds of queries, which are named by their places in it, with the positions of each kind's expression.
#[derive(Debug, Drop)]
pub struct KindTable {
    kinds: Vec<Kind>,
    positions: Vec<Arc<Positions, Global>>,
}

impl Model for KindTable {
    ghost use Rattle.std.specs.Prelude.{List, ◌≤◌, length, map};
    ghost use Rattle.std.specs.Arc.{arc_value};
    ghost use Rattle.std.specs.List.{AllByRecursion};
    ghost use Rattle.std.specs.Coded.{coded_list};
    ghost use Rattle.sg_expr.specs.Tree.{expr_of};
    ghost use Rattle.sg_expr.specs.Word.{ones_of};
    ghost use Rattle.sg_query.specs.Kinds.{ArePositions};
    ghost use Rattle.sg_query.specs.Query.{KindOf, coded_kind, value_of_kind};

    ghost Value = { List KindOf };

    ghost coded = { coded_list coded_kind };

    ghost view = { λ t. map value_of_kind t.kinds.items };

    ghost invariant = { λ t. (length t.kinds.items ≤ 255) × AllByRecursion (λ k. ones_of (expr_of k.expr) ≤ 63) t.kinds.items × ArePositions (map value_of_kind t.kinds.items) (map arc_value t.positions.items) };
}

impl KindTable {
    /// The table of these kinds, at most 255, in each of which at most 63 labels stand. Takes the time and memory of
    /// their positions.
    pub fn new(alloc: Global, kinds: Vec<Kind>) -> Result<KindTable, AllocError>
        requires few { length kinds.items ≤ 255 }
        requires small { AllByRecursion (λ k. ones_of (expr_of k.expr) ≤ 63) kinds.items }
        ensures { IfOk result (λ t. t ≡ map value_of_kind kinds.items) }
    {
        let positions = positions_of(alloc, kinds.as_slice())?;
        Ok(KindTable { kinds, positions })
    }

    /// How many kinds there are.
    pub fn len(&self) -> u8
        ensures { result ≡ length self.now }
    {
        self.kinds.len() as u8
    }

    /// Whether there is no kind.
    pub fn is_empty(&self) -> bool
        ensures { result ≡ (length self.now == 0) }
    {
        self.kinds.is_empty()
    }

    /// The kind with a number.
    pub fn kind(&self, number: u8) -> &Kind
        requires { number < length self.now }
        ensures kind { value_of_kind result.now ≡ kind_of self.now number }
        ensures small { ones_of (expr_of result.now.expr) ≤ 63 }
    {
        &self.kinds[usize::from(number)]
    }

    /// The positions of the expression of the kind with a number.
    pub fn positions(&self, number: u8) -> &Positions
        requires { number < length self.now }
        ensures { (w : Word) → (Accepts result.now (first_of result.now) w) ↔ (In (kind_of self.now number).expr w) }
    {
        &*self.positions[usize::from(number)]
    }

    /// The positions of the expression of the kind with a number, which the table and the caller share. A count is raised.
    pub fn share_positions(&self, number: u8) -> Result<Arc<Positions, Global>, AllocError>
        requires { number < length self.now }
        ensures { IfOk result (λ p. (w : Word) → (Accepts (arc_value p) (first_of (arc_value p)) w) ↔ (In (kind_of self.now number).expr w)) }
    {
        Arc::try_clone(&self.positions[usize::from(number)])
    }
}

/// The positions of each kind's expression.
fn positions_of(alloc: Global, kinds: &[Kind]) -> Result<Vec<Arc<Positions, Global>>, AllocError>
    requires { AllByRecursion (λ k. ones_of (expr_of k.expr) ≤ 63) kinds.now }
    ensures { IfOk result (λ v. ArePositions (map value_of_kind kinds.now) (map arc_value v.items)) }
{
    let mut positions = Vec::new(alloc);
    for kind in kinds {
        let built = Positions::build(alloc, &kind.expr)?;
        positions.push(Arc::new(alloc, built)?)?;
    }
    Ok(positions)
}
