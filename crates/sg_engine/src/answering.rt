ghost use Rattle.std.specs.Prelude.{◌≡◌, IfOk, map};
ghost use Rattle.sg_base.specs.List.{IsDistinct};
ghost use Rattle.sg_expr.specs.Tree.{ExprOf};
ghost use Rattle.sg_order.specs.Order.{precedes};
ghost use Rattle.sg_engine.specs.Search.{AnswersBy};
ghost use Rattle.sg_engine.specs.Tree.{paths_of, found_of, front_of, IsTree};

use crate::laying::{lay, no_places};
use crate::tree::Tree;
use sg_base::{Instance, PathTree};
use sg_order::Order;
use sg_query::{Answer, FoundAt, FoundTree, MOST_PATHS, visible_of};
use std::alloc::{AllocError, Global};

/// The paths that were found to reach a wanted datum, in a tree of their own, which has the nodes that lead to them, each
/// once. It takes the time of these nodes, and of a table of all nodes of the search.
fn found_tree<I: Instance>(
    alloc: Global,
    tree: &Tree<I::Datum>,
) -> Result<FoundTree<I::Datum>, AllocError>
    requires tree { (e : ExprOf) × IsTree e tree.now }
    ensures { IfOk result (λ r. (r.start ≡ tree.now.start) × (r.found ≡ map (found_of tree.now.start (paths_of tree.now.nodes.items)) tree.now.found.items)) }
{
    let mut paths = PathTree::new(alloc, tree.start);
    let mut places = no_places(alloc, tree)?;
    let mut found = Vec::new(alloc);
    for f in &tree.found {
        let place = lay(alloc, tree, f.place, &mut places, &mut paths)?;
        let datum = I::copy_datum(alloc, &f.datum)?;
        found.push(FoundAt { place, datum })?;
    }
    Ok(FoundTree::of(paths, found))
}

/// The answer by what was found. Where the order has a pair, found paths are compared with their neighbours, and of those that
/// are left each two whose data have one key; and the paths are sorted.
pub fn answer_of<I: Instance>(
    alloc: Global,
    tree: &Tree<I::Datum>,
    order: &Order,
) -> Result<Answer<I::Datum>, AllocError>
    requires tree { (e : ExprOf) × IsTree e tree.now }
    requires once { IsDistinct (map (λ y. y.path) (front_of tree.now).found) }
    ensures { IfOk result (AnswersBy I.same_datum (precedes order.now) (front_of tree.now)) }
{
    if tree.going > MOST_PATHS {
        return Ok(Answer::TooMany);
    }
    let all = found_tree::<I>(alloc, tree)?;
    Ok(Answer::Paths(visible_of::<I>(alloc, order, all)?))
}
