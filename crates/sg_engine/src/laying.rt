ghost use Rattle.std.specs.Prelude.{◌≡◌, ◌<◌, ◌⊎◌, [], ◌∷◌, IfOk, OnOk, length, slice_index};
ghost use Rattle.sg_base.specs.PathTree.{path_at};
ghost use Rattle.sg_expr.specs.Tree.{ExprOf};
ghost use Rattle.sg_engine.specs.Laying.{LiesAt, IsLaying, IsClimb};
ghost use Rattle.sg_engine.specs.Tree.{paths_of, IsTree, IsFrontOf};

use crate::tree::Tree;
use sg_base::{PathTree, Step};
use std::alloc::{AllocError, Global};

/// A table by which no node is laid but the first.
pub fn no_places<D>(alloc: Global, tree: &Tree<D>) -> Result<Vec<usize>, AllocError>
    requires { (e : ExprOf) × IsTree e tree.now }
    ensures { IfOk result (λ r. IsLaying (paths_of tree.now.nodes.items) ([] ∷ []) r.items) }
{
    let places = vec![in alloc; 0usize; tree.nodes.len()]?;
    Ok(places)
}

/// Where the node at a place is laid, or 0.
fn place_at(places: &[usize], k: usize) -> usize
    requires { k < length places.now }
    ensures { result ≡ slice_index places.now k }
{
    places[k]
}

/// The nodes from a place up that are not laid, each with its step, and the place of the first one above them that is.
fn climb<D>(
    alloc: Global,
    tree: &Tree<D>,
    place: usize,
    places: &[usize],
) -> Result<(Vec<(usize, Step)>, usize), AllocError>
    requires tree { (e : ExprOf) × IsTree e tree.now }
    requires there { place < length tree.now.nodes.items }
    requires long { length places.now ≡ length tree.now.nodes.items }
    ensures { IfOk result (λ r. IsClimb (paths_of tree.now.nodes.items) place r.1 r.0.items × ((r.1 ≡ 0) ⊎ (slice_index places.now r.1 ≡ 0 → ⊥))) }
{
    let mut climbed = Vec::new(alloc);
    let mut top = place;
    while top != 0 && place_at(places, top) == 0 {
        let node = tree.nodes.at(top);
        climbed.push((top, node.step))?;
        top = node.parent;
    }
    Ok((climbed, top))
}

/// Lays the path of a node into a tree of paths, and answers its place there. The table has the place of each node that is
/// laid, and 0 for the others. It takes the time of the nodes that it lays.
pub fn lay<D>(
    alloc: Global,
    tree: &Tree<D>,
    place: usize,
    places: &mut Vec<usize>,
    paths: &mut PathTree,
) -> Result<usize, AllocError>
    requires tree { (e : ExprOf) × IsTree e tree.now }
    requires there { place < length tree.now.nodes.items }
    requires laid { IsLaying (paths_of tree.now.nodes.items) paths.old.paths places.old.items }
    ensures start { paths.new.start ≡ paths.old.start }
    ensures front { IsFrontOf paths.old.paths paths.new.paths }
    ensures laid { OnOk result (IsLaying (paths_of tree.now.nodes.items) paths.new.paths places.new.items) }
    ensures lies { IfOk result (LiesAt (paths_of tree.now.nodes.items) paths.new.paths place) }
{
    let at = places.as_slice();
    let (mut climbed, top) = climb(alloc, tree, place, at)?;
    let mut under = place_at(at, top);
    while let Some((k, step)) = climbed.pop() {
        under = paths.push(under, step)?;
        places[k] = under;
    }
    Ok(under)
}
