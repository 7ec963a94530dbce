ghost use Rattle.std.specs.Prelude.{List, ◌≤◌, ◌≡◌, ◌+◌, None, IfOk, map};
ghost use Rattle.sg_base.specs.List.{IsDistinct};
ghost use Rattle.sg_expr.specs.Tree.{ExprOf};
ghost use Rattle.sg_order.specs.Order.{precedes};
ghost use Rattle.sg_base.specs.declared.step.Step.{Step as StepOf};
ghost use Rattle.sg_query.specs.Query.{Asked};
ghost use Rattle.sg_state.specs.Held.{IsHeld};
ghost use Rattle.sg_engine.specs.Keyed.{wanting_by};
ghost use Rattle.sg_engine.specs.Run.{IsSearchIn, RepliesToSearches};
ghost use Rattle.sg_engine.specs.Outcome.{IsOutcome};
ghost use Rattle.sg_engine.specs.Tree.{front_of, IsTree, LeadsBack};

use crate::answering::answer_of;
use crate::needs::needs_of;
use crate::progress::Progress;
use crate::run::go_on;
use crate::spent::Spent;
use crate::tree::Tree;
use sg_base::Instance;
use sg_order::Order;
use sg_query::Answer;
use sg_state::{Held, Need};
use std::alloc::{AllocError, Global};

/// What an advance comes to: its answer, what blocks the search where it is blocked, and the query's answer where it is
/// ready.
#[derive(Drop)]
pub struct Outcome<D: Drop> {
    pub progress: Progress,
    pub needs: Vec<Need>,
    pub answer: Option<Answer<D>>,
}

/// What an advance comes to that has this answer.
fn outcome_of<I: Instance>(
    alloc: Global,
    tree: &Tree<I::Datum>,
    order: &Order,
    progress: Progress,
) -> Result<Outcome<I::Datum>, AllocError>
    requires tree { (e : ExprOf) × IsTree e tree.now }
    requires once { IsDistinct (map (λ y. y.path) (front_of tree.now).found) }
    ensures progress { IfOk result (λ o. o.progress ≡ progress) }
    ensures outcome { IfOk result (λ o. IsOutcome I.same_datum (precedes order.now) tree.now progress o.needs.items o.answer) }
{
    let mut needs = Vec::new(alloc);
    let mut answer = None;
    match progress {
        Progress::Moved => {}
        Progress::Blocked => needs = needs_of(alloc, &tree.nodes, &tree.blocked)?,
        Progress::Ready => answer = Some(answer_of::<I>(alloc, tree, order)?),
    }
    Ok(Outcome {
        progress,
        needs,
        answer,
    })
}

/// Explores up to 64 items, and says what that comes to. The tree can be put back by its lists, and by the queue that was
/// spent.
pub fn try_advance<I: Instance>(
    alloc: Global,
    tree: &mut Tree<I::Datum>,
    h: &Held<I>,
    pred: &I::Pred,
    order: &Order,
    spent: &mut Option<Spent>,
) -> Result<Outcome<I::Datum>, AllocError>
    requires held { IsHeld h.now }
    requires stands { (q : Asked I.Datum) × (ps : List (List StepOf)) × IsSearchIn h.now (wanting_by I.wants I.datum_key I.pred_key pred.now) ps q tree.old }
    requires anew { spent.old ≡ None }
    ensures stands { RepliesToSearches h.now (wanting_by I.wants I.datum_key I.pred_key pred.now) (tree.old.explored + 64) tree.old tree.new result (λ o. o.progress) }
    ensures outcome { IfOk result (λ o. IsOutcome I.same_datum (precedes order.now) tree.new o.progress o.needs.items o.answer) }
    ensures more { IfOk result (λ _. tree.old.explored ≤ tree.new.explored) }
    ensures back { LeadsBack tree.old tree.new spent.new }
{
    let progress = go_on::<I>(alloc, tree, h, pred, spent)?;
    let outcome = outcome_of::<I>(alloc, tree, order, progress)?;
    Ok(outcome)
}
