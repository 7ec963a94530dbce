ghost use Rattle.std.specs.Prelude.{◌≡◌, ◌≢◌, ◌↔◌, ◌<◌, ◌≤◌, IsTrue, IsFalse, IfOk, OnOk, length, map, take, drop, slice_index_or};
ghost use Rattle.std.specs.List.{Contains};
ghost use Rattle.std.specs.List.Sorted.{IsNonDecreasingBy, IsPermutation};
ghost use Rattle.sg_base.specs.List.{IsDistinct, IsRising};
ghost use Rattle.sg_base.specs.PathTree.{path_at};
ghost use Rattle.sg_order.specs.Order.{precedes, IsStrict};
ghost use Rattle.sg_query.specs.declared.found_at.FoundAt.{FoundAt as FoundAtOf};
ghost use Rattle.sg_query.specs.Answer.{found_cmp};
ghost use Rattle.sg_query.specs.Found.{found_in, AreThere};
ghost use Rattle.sg_query.specs.Marks.{AreMarked, AreShadowedWhereMarked, LosesShadowed, MarksOn, unmarked};
ghost use Rattle.sg_query.specs.Shadow.{IsShadowed, AreUnshadowed};

use crate::found_at::FoundAt;
use crate::found_paths::FoundPaths;
use crate::found_tree::FoundTree;
use sg_base::{Instance, Mark, PathTree};
use sg_order::Order;
use std::alloc::{AllocError, Global};
use std::cmp::Ordering;

/// The paths that no other with the same datum comes before, in rising order. They are moved and not copied.
///
/// Sorts them in the time of n log n comparisons of n paths. Where the order has a pair, paths that a neighbour shadows are
/// left out, and of the others those whose data have one key are compared, each with each.
pub fn visible_of<I: Instance>(
    alloc: Global,
    order: &Order,
    all: FoundTree<I::Datum>,
) -> Result<FoundPaths<I::Datum>, AllocError>
    requires once { IsDistinct (map (λ f. f.path) all.found) }
    ensures { IfOk result (λ r. IsRising found_cmp r × AreUnshadowed I.same_datum (precedes order.now) all.found r) }
{
    let (paths, found) = all.parts();
    let unshadowed = unshadowed_of::<I>(alloc, order, &paths, found)?;
    let rising = sorted(&paths, unshadowed);
    FoundPaths::new(alloc, FoundTree::of(paths, rising))
}

/// The paths in rising order.
fn sorted<D>(paths: &PathTree, all: Vec<FoundAt<D>>) -> Vec<FoundAt<D>>
    requires { IsDistinct (map (λ f. f.path) (map (found_in paths.now) all.items)) }
    ensures rising { IsRising found_cmp (map (found_in paths.now) result.items) }
    ensures same { IsPermutation all.items result.items }
{
    let mut found = all;
    found.sort_unstable_by(|f, h| compare_found(paths, f, h));
    found
}

/// The order of two found paths.
fn compare_found<D>(paths: &PathTree, f: &FoundAt<D>, h: &FoundAt<D>) -> Ordering
    ensures { result ≡ found_cmp (found_in paths.now f.now) (found_in paths.now h.now) }
{
    paths.compare(place_in(paths, f.place), place_in(paths, h.place))
}

/// The place itself, or that of the path with no step where the tree has no such place.
fn place_in(paths: &PathTree, place: usize) -> usize
    ensures there { result < length paths.now.paths }
    ensures same { path_at paths.now.paths result ≡ path_at paths.now.paths place }
{
    if place < paths.len() {
        place
    } else {
        paths.first()
    }
}

/// The paths that no other with the same datum comes before.
///
/// In the order of the search, a path that is shadowed mostly stands behind one that comes before it. Those are left out
/// first, in the time of the steps by which neighbours differ, and what is left is compared, each with each.
fn unshadowed_of<I: Instance>(
    alloc: Global,
    order: &Order,
    paths: &PathTree,
    all: Vec<FoundAt<I::Datum>>,
) -> Result<Vec<FoundAt<I::Datum>>, AllocError>
    requires there { AreThere paths.now all.items }
    requires once { IsDistinct (map (λ f. f.path) (map (found_in paths.now) all.items)) }
    ensures there { IfOk result (λ r. AreThere paths.now r.items) }
    ensures once { IfOk result (λ r. IsDistinct (map (λ f. f.path) (map (found_in paths.now) r.items))) }
    ensures unshadowed { IfOk result (λ r. AreUnshadowed I.same_datum (precedes order.now) (map (found_in paths.now) all.items) (map (found_in paths.now) r.items)) }
{
    if order.is_empty() {
        return Ok(all);
    }
    let keyed = by_key::<I>(all);
    let left = unshadowed_beside::<I>(alloc, order, paths, keyed)?;
    unshadowed_each::<I>(alloc, order, paths, left)
}

/// The paths but for those that the one in front of them in the list, or the one behind them, shadows.
fn unshadowed_beside<I: Instance>(
    alloc: Global,
    order: &Order,
    paths: &PathTree,
    all: Vec<FoundAt<I::Datum>>,
) -> Result<Vec<FoundAt<I::Datum>>, AllocError>
    requires there { AreThere paths.now all.items }
    requires once { IsDistinct (map (λ f. f.path) (map (found_in paths.now) all.items)) }
    ensures there { IfOk result (λ r. AreThere paths.now r.items) }
    ensures once { IfOk result (λ r. IsDistinct (map (λ f. f.path) (map (found_in paths.now) r.items))) }
    ensures loses { IfOk result (λ r. LosesShadowed I.same_datum (precedes order.now) (map (found_in paths.now) all.items) (map (found_in paths.now) r.items)) }
{
    if all.len() < 2 {
        return Ok(all);
    }
    let shadowed = marks_beside::<I>(alloc, order, paths, all.as_slice())?;
    Ok(without_marked(alloc, all, shadowed.as_slice())?)
}

/// A mark for each of these paths, which is set where the one in front of it or the one behind it shadows it.
fn marks_beside<I: Instance>(
    alloc: Global,
    order: &Order,
    paths: &PathTree,
    all: &[FoundAt<I::Datum>],
) -> Result<Vec<bool>, AllocError>
    requires there { AreThere paths.now all.now }
    ensures { IfOk result (λ r. AreShadowedWhereMarked I.same_datum (precedes order.now) (map (found_in paths.now) all.now) (map (found_in paths.now) all.now) r.items) }
{
    let mut marks = Vec::new(alloc);
    for k in 0..all.len() {
        let shadowed = is_shadowed_beside::<I>(order, paths, all, k);
        marks.push(shadowed)?;
    }
    Ok(marks)
}

/// Whether the path in front of this one in the list or the one behind it has the same datum and comes before it.
fn is_shadowed_beside<I: Instance>(
    order: &Order,
    paths: &PathTree,
    all: &[FoundAt<I::Datum>],
    k: usize,
) -> bool
    requires there { AreThere paths.now all.now }
    requires within { k < length all.now }
    ensures { (f : FoundAtOf I.Datum) → f ≡ slice_index_or all.now k f → IsTrue result → IsShadowed I.same_datum (precedes order.now) (map (found_in paths.now) all.now) (found_in paths.now f) }
{
    if k > 0 && shadows::<I>(order, paths, all, k - 1, k) {
        return true;
    }
    k + 1 < all.len() && shadows::<I>(order, paths, all, k + 1, k)
}

/// Whether the path at the first index of the list has the datum of that at the second, and comes before it.
fn shadows<I: Instance>(
    order: &Order,
    paths: &PathTree,
    all: &[FoundAt<I::Datum>],
    j: usize,
    k: usize,
) -> bool
    requires there { AreThere paths.now all.now }
    requires first { j < length all.now }
    requires second { k < length all.now }
    ensures { (f : FoundAtOf I.Datum) → f ≡ slice_index_or all.now k f → IsTrue result → IsShadowed I.same_datum (precedes order.now) (map (found_in paths.now) all.now) (found_in paths.now f) }
{
    let other = &all[j];
    let found = &all[k];
    I::same(&found.datum, &other.datum) && order.place_before(paths, other.place, found.place)
}

/// The paths that no other with the same datum comes before, by comparing each with each whose datum has the same key.
fn unshadowed_each<I: Instance>(
    alloc: Global,
    order: &Order,
    paths: &PathTree,
    all: Vec<FoundAt<I::Datum>>,
) -> Result<Vec<FoundAt<I::Datum>>, AllocError>
    requires there { AreThere paths.now all.items }
    requires once { IsDistinct (map (λ f. f.path) (map (found_in paths.now) all.items)) }
    ensures there { IfOk result (λ r. AreThere paths.now r.items) }
    ensures once { IfOk result (λ r. IsDistinct (map (λ f. f.path) (map (found_in paths.now) r.items))) }
    ensures unshadowed { IfOk result (λ r. AreUnshadowed I.same_datum (precedes order.now) (map (found_in paths.now) all.items) (map (found_in paths.now) r.items)) }
    ensures strict { IsStrict (precedes order.now) }
{
    // For the proof alone, which takes from this call that the order is strict.
    let _end = order.before(Mark::End, Mark::End);
    if all.len() < 2 {
        return Ok(all);
    }
    let keyed = by_key::<I>(all);
    let shadowed = marks_of::<I>(alloc, order, paths, keyed.as_slice())?;
    Ok(without_marked(alloc, keyed, shadowed.as_slice())?)
}

/// The paths in the order of their data's keys.
fn by_key<I: Instance>(all: Vec<FoundAt<I::Datum>>) -> Vec<FoundAt<I::Datum>>
    ensures rising { IsNonDecreasingBy (λ f. I.datum_key f.datum) result.items }
    ensures same { IsPermutation all.items result.items }
{
    let mut found = all;
    found.sort_unstable_by_key(|f| I::key_of_datum(&f.datum));
    found
}

/// For each of these paths, whether another of them with the same datum comes before it.
fn marks_of<I: Instance>(
    alloc: Global,
    order: &Order,
    paths: &PathTree,
    all: &[FoundAt<I::Datum>],
) -> Result<Vec<bool>, AllocError>
    requires there { AreThere paths.now all.now }
    requires rising { IsNonDecreasingBy (λ f. I.datum_key f.datum) all.now }
    ensures { IfOk result (λ r. AreMarked I.same_datum (precedes order.now) (map (found_in paths.now) all.now) (map (found_in paths.now) all.now) r.items) }
{
    let mut marks = Vec::new(alloc);
    let mut rest = all;
    while !rest.is_empty() {
        let (run, behind) = rest.split_at(key_run::<I>(rest));
        mark_run::<I>(order, paths, run, &mut marks)?;
        rest = behind;
    }
    Ok(marks)
}

/// How many of the first paths have data with one key.
fn key_run<I: Instance>(rest: &[FoundAt<I::Datum>]) -> usize
    requires some { 0 < length rest.now }
    requires rising { IsNonDecreasingBy (λ f. I.datum_key f.datum) rest.now }
    ensures some { 0 < result }
    ensures within { result ≤ length rest.now }
    ensures same { (f h : FoundAtOf I.Datum) → Contains (take result rest.now) f → Contains (take result rest.now) h → I.datum_key f.datum ≡ I.datum_key h.datum }
    ensures apart { (f h : FoundAtOf I.Datum) → Contains (take result rest.now) f → Contains (drop result rest.now) h → I.datum_key f.datum ≢ I.datum_key h.datum }
{
    let key = I::key_of_datum(&rest[0].datum);
    for n in 1..rest.len() {
        if I::key_of_datum(&rest[n].datum) != key {
            return n;
        }
    }
    rest.len()
}

/// Adds to the marks, for each of these paths, whether another of them with the same datum comes before it.
fn mark_run<I: Instance>(
    order: &Order,
    paths: &PathTree,
    run: &[FoundAt<I::Datum>],
    marks: &mut Vec<bool>,
) -> Result<(), AllocError>
    requires { AreThere paths.now run.now }
    ensures { OnOk result (MarksOn I.same_datum (precedes order.now) (map (found_in paths.now) run.now) marks.old.items marks.new.items) }
{
    for found in run {
        let shadowed = is_shadowed::<I>(order, paths, run, found);
        marks.push(shadowed)?;
    }
    Ok(())
}

/// Whether a path of these with the same datum comes before this one.
fn is_shadowed<I: Instance>(
    order: &Order,
    paths: &PathTree,
    all: &[FoundAt<I::Datum>],
    found: &FoundAt<I::Datum>,
) -> bool
    requires there { AreThere paths.now all.now }
    requires this { found.now.place < length paths.now.paths }
    ensures shadowed { IsTrue result → IsShadowed I.same_datum (precedes order.now) (map (found_in paths.now) all.now) (found_in paths.now found.now) }
    ensures shown { IsFalse result → IsShadowed I.same_datum (precedes order.now) (map (found_in paths.now) all.now) (found_in paths.now found.now) → ⊥ }
{
    for other in all {
        if I::same(&found.datum, &other.datum)
            && order.place_before(paths, other.place, found.place)
        {
            return true;
        }
    }
    false
}

/// The things that are not marked.
fn without_marked<T: Drop>(alloc: Global, all: Vec<T>, marks: &[bool]) -> Result<Vec<T>, AllocError>
    requires { length marks.now ≡ length all.items }
    ensures { IfOk result (λ r. r.items ≡ unmarked all.items marks.now) }
{
    let mut kept = Vec::new(alloc);
    let mut place = 0;
    for found in all {
        if !marks[place] {
            kept.push(found)?;
        }
        place += 1;
    }
    Ok(kept)
}
