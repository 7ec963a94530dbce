ghost use Rattle.std.specs.Prelude.{◌≡◌, ◌≢◌, ◌<◌, [], List, OnOk, IfOk, length};
ghost use Rattle.sg_base.specs.Graph.{row_of};
ghost use Rattle.sg_base.specs.Label.{Word};
ghost use Rattle.sg_base.specs.Path.{end_of};
ghost use Rattle.sg_base.specs.PathTree.{path_at};
ghost use Rattle.sg_expr.specs.Positions.{Accepts};
ghost use Rattle.sg_expr.specs.Tree.{ExprOf};
ghost use Rattle.sg_base.specs.declared.step.Step.{Step as StepOf};
ghost use Rattle.sg_query.specs.Query.{Asked};
ghost use Rattle.sg_state.specs.Held.{IsHeld, state_of};
ghost use Rattle.sg_engine.specs.declared.work.Work.TheVariants.{Next as NextOf, Whole as WholeOf};
ghost use Rattle.sg_engine.specs.Explore.{AfterWork, TakesWork, GrowsIntoRow, AreTargetsFor, AreTargetsUnder};
ghost use Rattle.sg_engine.specs.Front.{Stands};
ghost use Rattle.sg_engine.specs.Keyed.{wanting_by};
ghost use Rattle.sg_engine.specs.Nodes.{IsRestAfter};
ghost use Rattle.sg_engine.specs.Run.{HasTaken, HasStepped, IsSearchIn, KeepsSearches, KeepsBlocked};
ghost use Rattle.sg_engine.specs.Tree.{paths_of, place_of, front_of, IsTree, IsTreeWith, ListsOn};

use crate::tree::Tree;
use crate::work::Work;
use sg_base::{Instance, Label, Scope};
use sg_query::{FoundAt, MOST_PATHS};
use sg_state::{DatumState, Held};
use std::alloc::{AllocError, Global};

/// Adds the paths of a node with one more step to the targets of a closed row behind which the wanted datum may be: those
/// under its key, and those without a key. No word goes on behind the label, which the words of this set follow.
fn push_keyed<I: Instance>(
    tree: &mut Tree<I::Datum>,
    h: &Held<I>,
    key: u64,
    place: usize,
    l: Label,
    set: u64,
) -> Result<(), AllocError>
    requires tree { (e : ExprOf) × IsTree e tree.old }
    requires there { place < length tree.old.nodes.items }
    requires after { IsRestAfter tree.old.nodes place l set }
    requires ends { (w : Word) × (w ≢ []) × Accepts tree.old.nodes.words set w → ⊥ }
    ensures tree { GrowsIntoRow tree.old tree.new place l result (AreTargetsUnder I.wants I.datum_key I.pred_key h.now key tree.old place l) }
    ensures next { tree.new.next ≡ tree.old.next }
    ensures explored { tree.new.explored ≡ tree.old.explored }
    ensures blocked { tree.new.blocked ≡ tree.old.blocked }
    ensures lists { ListsOn tree.old tree.new }
{
    let end = tree.nodes.at(place).step.to;
    tree.push_targets(h.row_keyed(end, l, key), place, l, set)?;
    tree.push_targets(h.row_rest(end, l), place, l, set)?;
    Ok(())
}

/// Adds the paths of a node with one more step into a closed row, but for those that are passed over.
fn push_row<I: Instance>(
    tree: &mut Tree<I::Datum>,
    h: &Held<I>,
    pred: &I::Pred,
    row: &[Scope],
    place: usize,
    l: Label,
) -> Result<(), AllocError>
    requires held { IsHeld h.now }
    requires tree { (e : ExprOf) × IsTree e tree.old }
    requires there { place < length tree.old.nodes.items }
    requires row { row.now ≡ row_of h.now.graph (end_of tree.old.start (path_at (paths_of tree.old.nodes.items) place)) l }
    ensures tree { GrowsIntoRow tree.old tree.new place l result (AreTargetsFor h.now (wanting_by I.wants I.datum_key I.pred_key pred.now) tree.old place l) }
    ensures next { tree.new.next ≡ tree.old.next }
    ensures explored { tree.new.explored ≡ tree.old.explored }
    ensures blocked { tree.new.blocked ≡ tree.old.blocked }
    ensures lists { ListsOn tree.old tree.new }
{
    let set = tree.nodes.set_after(place, l);
    if !tree.nodes.words().goes_on(set) {
        if let Some(key) = I::key_of_pred(pred) {
            return push_keyed::<I>(tree, h, key, place, l, set);
        }
    }
    tree.push_targets(row, place, l, set)
}

/// Explores the next label of a node's path, or puts it aside where the row is open. Whether it explored it.
fn take_row<I: Instance>(
    tree: &mut Tree<I::Datum>,
    h: &Held<I>,
    pred: &I::Pred,
    place: usize,
    l: Label,
) -> Result<bool, AllocError>
    requires held { IsHeld h.now }
    requires tree { (e : ExprOf) × IsTreeWith e (NextOf place l) tree.old }
    requires there { place < length tree.old.nodes.items }
    ensures stands { TakesWork h.now (wanting_by I.wants I.datum_key I.pred_key pred.now) (NextOf place l) tree.old tree.new result }
    ensures taken { IfOk result (HasTaken (state_of h.now) (NextOf place l) tree.old tree.new) }
    ensures lists { ListsOn tree.old tree.new }
{
    // For the proof alone, which takes from this call how many paths there may be.
    let _paths = tree.nodes.len();
    match h.closed_row(tree.nodes.at(place).step.to, l) {
        None => {
            tree.blocked.push(Work::Next(place, l))?;
            Ok(false)
        }
        Some(row) => {
            tree.explored += 1;
            push_row::<I>(tree, h, pred, row, place, l)?;
            Ok(true)
        }
    }
}

/// Reads the datum at a node's end, or puts that aside where the datum is unset, by one look-up. Whether it read it.
fn take_datum<I: Instance>(
    alloc: Global,
    tree: &mut Tree<I::Datum>,
    h: &Held<I>,
    pred: &I::Pred,
    place: usize,
) -> Result<bool, AllocError>
    requires held { IsHeld h.now }
    requires tree { (e : ExprOf) × IsTreeWith e (WholeOf place) tree.old }
    requires there { place < length tree.old.nodes.items }
    ensures stands { AfterWork (state_of h.now) (I.wants pred.now) (WholeOf place) tree.old result (λ q. IsTree q.expr tree.new × Stands (state_of h.now) q (front_of tree.new)) }
    ensures nodes { tree.new.nodes ≡ tree.old.nodes }
    ensures taken { IfOk result (HasTaken (state_of h.now) (WholeOf place) tree.old tree.new) }
    ensures lists { ListsOn tree.old tree.new }
{
    // For the proof alone, which takes from this call how many paths there may be.
    let _paths = tree.nodes.len();
    match h.datum(tree.nodes.at(place).step.to) {
        DatumState::Unset => {
            tree.blocked.push(Work::Whole(place))?;
            Ok(false)
        }
        DatumState::Set(d) => {
            if I::matches(pred, d) {
                let datum = I::copy_datum(alloc, d)?;
                tree.found.push(FoundAt { place, datum })?;
                tree.explored += 1;
                Ok(true)
            } else {
                tree.explored += 1;
                Ok(true)
            }
        }
        DatumState::Absent => {
            tree.explored += 1;
            Ok(true)
        }
    }
}

/// Explores an item, or puts it aside where it is blocked, in the time of one look-up and of what it adds. Whether it
/// explored it.
fn take<I: Instance>(
    alloc: Global,
    tree: &mut Tree<I::Datum>,
    h: &Held<I>,
    pred: &I::Pred,
    w: Work,
) -> Result<bool, AllocError>
    requires held { IsHeld h.now }
    requires tree { (e : ExprOf) × IsTreeWith e w tree.old }
    requires there { place_of w < length tree.old.nodes.items }
    ensures stands { TakesWork h.now (wanting_by I.wants I.datum_key I.pred_key pred.now) w tree.old tree.new result }
    ensures taken { IfOk result (HasTaken (state_of h.now) w tree.old tree.new) }
    ensures lists { ListsOn tree.old tree.new }
{
    match w {
        Work::Next(k, l) => take_row::<I>(tree, h, pred, k, l),
        Work::Whole(k) => take_datum::<I>(alloc, tree, h, pred, k),
    }
}

/// What a step over the queue comes to: too many paths go on, nothing free is left in the queue, or an item was explored.
#[derive(Clone, Copy, Debug)]
pub enum Stepped {
    Many,
    Over,
    Explored,
}

/// Explores the first item of the queue that is not blocked, and puts aside the work before it.
pub fn explore_next<I: Instance>(
    alloc: Global,
    tree: &mut Tree<I::Datum>,
    h: &Held<I>,
    pred: &I::Pred,
) -> Result<Stepped, AllocError>
    requires held { IsHeld h.now }
    requires stands { (q : Asked I.Datum) × (ps : List (List StepOf)) × IsSearchIn h.now (wanting_by I.wants I.datum_key I.pred_key pred.now) ps q tree.old }
    ensures stands { KeepsSearches h.now (wanting_by I.wants I.datum_key I.pred_key pred.now) tree.old tree.new result }
    ensures stepped { IfOk result (HasStepped tree.old tree.new) }
    ensures blocked { OnOk result (KeepsBlocked (state_of h.now) tree.old tree.new) }
    ensures lists { ListsOn tree.old tree.new }
{
    if tree.going > MOST_PATHS {
        return Ok(Stepped::Many);
    }
    while tree.next < tree.queue.len() {
        let w = tree.queue[tree.next];
        tree.next += 1;
        if take::<I>(alloc, tree, h, pred, w)? {
            return Ok(Stepped::Explored);
        }
    }
    Ok(Stepped::Over)
}
