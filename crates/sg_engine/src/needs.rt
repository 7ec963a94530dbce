ghost use Rattle.std.specs.Prelude.{◌≡◌, ◌<◌, IfOk, length};
ghost use Rattle.std.specs.List.{AllByRecursion};
ghost use Rattle.sg_base.specs.declared.scope.Scope.{Scope as ScopeOf};
ghost use Rattle.sg_base.specs.List.{IsRising};
ghost use Rattle.sg_expr.specs.Tree.{ExprOf};
ghost use Rattle.sg_engine.specs.Need.{need_of, AreNeedsOf};
ghost use Rattle.sg_state.specs.Need.{need_cmp};
ghost use Rattle.sg_engine.specs.Tree.{paths_of, item_of, place_of, AreNodes};

use crate::nodes::Nodes;
use crate::work::Work;
use sg_state::Need;
use std::alloc::{AllocError, Global};

/// What work that is blocked waits for.
fn need_at(nodes: &Nodes, w: &Work) -> Need
    requires there { place_of w.now < length nodes.now.items }
    ensures { (e : ExprOf) (start : ScopeOf) → AreNodes e start nodes.now.items → result ≡ need_of start (item_of (paths_of nodes.now.items) w.now) }
{
    match *w {
        Work::Next(k, l) => Need::Row(nodes.at(k).step.to, l),
        Work::Whole(k) => Need::Datum(nodes.at(k).step.to),
    }
}

/// What each piece of blocked work waits for, in turn.
fn all_needs(alloc: Global, nodes: &Nodes, blocked: &[Work]) -> Result<Vec<Need>, AllocError>
    requires there { AllByRecursion (λ w. place_of w < length nodes.now.items) blocked.now }
    ensures { IfOk result (λ r. AreNeedsOf nodes.now.items blocked.now r.items) }
{
    let mut all = Vec::new(alloc);
    for w in blocked {
        all.push(need_at(nodes, w))?;
    }
    Ok(all)
}

/// The rising list of what blocked work waits for, by one sort.
pub fn needs_of(alloc: Global, nodes: &Nodes, blocked: &[Work]) -> Result<Vec<Need>, AllocError>
    requires there { AllByRecursion (λ w. place_of w < length nodes.now.items) blocked.now }
    ensures rising { IfOk result (λ r. IsRising need_cmp r.items) }
    ensures exact { IfOk result (λ r. AreNeedsOf nodes.now.items blocked.now r.items) }
{
    let mut needs = all_needs(alloc, nodes, blocked)?;
    needs.sort_unstable();
    needs.dedup();
    Ok(needs)
}
