ghost use Rattle.std.specs.Prelude.{List, ◌≤◌, ◌≡◌, ◌+◌, None, IfOk, length};
ghost use Rattle.sg_base.specs.declared.step.Step.{Step as StepOf};
ghost use Rattle.sg_query.specs.Query.{Asked};
ghost use Rattle.sg_state.specs.Held.{IsHeld, state_of};
ghost use Rattle.sg_engine.specs.Tree.{ListsOn, LeadsBack};
ghost use Rattle.sg_engine.specs.Keyed.{wanting_by};
ghost use Rattle.sg_engine.specs.Run.{IsSearchIn, KeepsSearches, RepliesToSearches, HasRun};

use crate::explore::{Stepped, explore_next};
use crate::look::{Look, look_on};
use crate::progress::Progress;
use crate::spent::Spent;
use crate::tree::Tree;
use sg_base::Instance;
use sg_state::Held;
use std::alloc::{AllocError, Global};
use std::mem;

/// How many items one advance explores at most.
const MOST_ITEMS: u32 = 64;

/// What a run comes to: too many paths go on; nothing free is left in the queue, with so many items that it might still
/// explore; or it explored all that it might, and an item is free.
#[derive(Clone, Copy, Debug)]
pub enum Run {
    Many,
    Over(u32),
    Free,
}

/// Explores up to `most` items of the queue.
fn run_on<I: Instance>(
    alloc: Global,
    tree: &mut Tree<I::Datum>,
    h: &Held<I>,
    pred: &I::Pred,
    most: u32,
) -> Result<Run, AllocError>
    requires held { IsHeld h.now }
    requires stands { (q : Asked I.Datum) × (ps : List (List StepOf)) × IsSearchIn h.now (wanting_by I.wants I.datum_key I.pred_key pred.now) ps q tree.old }
    ensures stands { KeepsSearches h.now (wanting_by I.wants I.datum_key I.pred_key pred.now) tree.old tree.new result }
    ensures ran { IfOk result (HasRun (state_of h.now) most tree.old tree.new) }
    ensures more { IfOk result (λ _. tree.old.explored ≤ tree.new.explored) }
    ensures lists { ListsOn tree.old tree.new }
{
    for n in 0..most {
        match explore_next::<I>(alloc, tree, h, pred)? {
            Stepped::Many => return Ok(Run::Many),
            Stepped::Over => return Ok(Run::Over(most - n)),
            Stepped::Explored => {}
        }
    }
    match look_on(tree, h)? {
        Look::Many => Ok(Run::Many),
        Look::Over => Ok(Run::Over(0)),
        Look::Free(_w) => Ok(Run::Free),
    }
}

/// Explores up to `left` items of what was put aside, where the queue is over, and gives the old queue in `spent`.
fn look_again<I: Instance>(
    alloc: Global,
    tree: &mut Tree<I::Datum>,
    h: &Held<I>,
    pred: &I::Pred,
    left: u32,
    spent: &mut Option<Spent>,
) -> Result<Progress, AllocError>
    requires held { IsHeld h.now }
    requires stands { (q : Asked I.Datum) × (ps : List (List StepOf)) × IsSearchIn h.now (wanting_by I.wants I.datum_key I.pred_key pred.now) ps q tree.old }
    requires over { tree.old.next ≡ length tree.old.queue.items }
    ensures stands { RepliesToSearches h.now (wanting_by I.wants I.datum_key I.pred_key pred.now) (tree.old.explored + left) tree.old tree.new result (λ p. p) }
    ensures more { IfOk result (λ _. tree.old.explored ≤ tree.new.explored) }
    ensures back { LeadsBack tree.old tree.new spent.new }
{
    let waiting = mem::replace(&mut tree.blocked, Vec::new(alloc));
    let over = mem::replace(&mut tree.queue, waiting);
    *spent = Some(Spent { queue: over });
    tree.next = 0;
    match run_on::<I>(alloc, tree, h, pred, left)? {
        Run::Many => Ok(Progress::Ready),
        Run::Free => Ok(Progress::Moved),
        Run::Over(_left) => {
            if tree.blocked.is_empty() {
                Ok(Progress::Ready)
            } else {
                Ok(Progress::Blocked)
            }
        }
    }
}

/// Explores up to 64 items, and answers how it stands. Where the queue was over, the work that was put aside is the new
/// one, and the old queue is given in `spent`.
pub fn go_on<I: Instance>(
    alloc: Global,
    tree: &mut Tree<I::Datum>,
    h: &Held<I>,
    pred: &I::Pred,
    spent: &mut Option<Spent>,
) -> Result<Progress, AllocError>
    requires held { IsHeld h.now }
    requires stands { (q : Asked I.Datum) × (ps : List (List StepOf)) × IsSearchIn h.now (wanting_by I.wants I.datum_key I.pred_key pred.now) ps q tree.old }
    requires anew { spent.old ≡ None }
    ensures stands { RepliesToSearches h.now (wanting_by I.wants I.datum_key I.pred_key pred.now) (tree.old.explored + 64) tree.old tree.new result (λ p. p) }
    ensures more { IfOk result (λ _. tree.old.explored ≤ tree.new.explored) }
    ensures back { LeadsBack tree.old tree.new spent.new }
{
    match run_on::<I>(alloc, tree, h, pred, MOST_ITEMS)? {
        Run::Many => Ok(Progress::Ready),
        Run::Free => Ok(Progress::Moved),
        Run::Over(left) => {
            if tree.blocked.is_empty() {
                Ok(Progress::Ready)
            } else {
                look_again::<I>(alloc, tree, h, pred, left, spent)
            }
        }
    }
}
