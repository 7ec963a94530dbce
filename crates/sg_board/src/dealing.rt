//! What the workers work with at the beginning.
ghost use Rattle.std.specs.Prelude.{◌≡◌, ◌+◌, ◌-◌, ◌<◌, ◌≤◌, ◌++◌, ◌∷◌, ℕ, List, [], IfOk, All, map, length, vec_len, vec_capacity};
ghost use Rattle.crossbeam_queue.specs.Passes.{view, IsPassOf};
ghost use Rattle.crossbeam_deque.specs.Handles.{worker_view, worker_deque};
ghost use Rattle.sg_board.specs.Shapes.{DequeId, AreShapes};
ghost use Rattle.sg_board.specs.Shares.{AreNew, HandsMove, hands_taken, hands_given, hand_shapes};
ghost use Rattle.sg_board.specs.Weighing.{account, with_parts, all_parts, weigh};

use crate::board::Board;
use crate::hand::Hand;
use crate::lock::{Lock, OnePart};
use crate::owner::Owner;
use crate::share::Share;
use crate::task::Task;
use crate::thief::Thief;
use crate::worker_view::WorkerView;
use crossbeam_queue::Pass;
use std::alloc::{AllocError, Global};
use std::collections::VecDeque;
use std::sync::Wait;

/// A worker's ways to the deques, in the order of their workers.
type Ways<T> = Vec<Thief<T>>;

/// The deques of so many workers, of which each has room for so many tasks at first, and for each worker the ways to all.
pub(crate) fn open<T: Task>(
    alloc: Global,
    workers: u32,
    capacity: usize,
) -> Result<(Vec<Owner<T>>, Vec<Ways<T>>), AllocError>
    ensures count { IfOk result (λ r. (vec_len r.0 ≡ workers) × (vec_len r.1 ≡ workers)) }
    ensures owners { IfOk result (λ r. All (λ o. worker_view o ≡ account (all_parts - workers) [] [] 0) r.0.items) }
    ensures ways { IfOk result (λ r. All (λ w. AreNew (map (λ o. worker_deque o) r.0.items) w.items) r.1.items) }
{
    let mut owners = Vec::with_capacity(alloc, workers as usize)?;
    let mut all_ways = no_ways(alloc, workers)?;
    for _worker in 0..workers {
        let (owner, more) = open_one(alloc, capacity, all_ways)?;
        owners.push(owner)?;
        all_ways = more;
    }
    Ok((owners, all_ways))
}

/// No ways yet, for each of so many workers.
fn no_ways<T: Task>(alloc: Global, workers: u32) -> Result<Vec<Ways<T>>, AllocError>
    ensures { IfOk result (λ v. (vec_len v ≡ workers) × All (λ w. AreNew [] w.items) v.items) }
{
    let mut all_ways = Vec::with_capacity(alloc, workers as usize)?;
    for _worker in 0..workers {
        all_ways.push(Vec::with_capacity(alloc, workers as usize)?)?;
    }
    Ok(all_ways)
}

/// One more deque, to which each worker gets a way.
fn open_one<T: Task>(
    alloc: Global,
    capacity: usize,
    all_ways: Vec<Ways<T>>,
) -> Result<(Owner<T>, Vec<Ways<T>>), AllocError>
    requires { vec_len all_ways < all_parts }
    ensures owner { IfOk result (λ r. worker_view r.0 ≡ account (all_parts - vec_len all_ways) [] [] 0) }
    ensures count { IfOk result (λ r. vec_len r.1 ≡ vec_len all_ways) }
    ensures ways { IfOk result (λ r. (ds : List DequeId) → All (λ w. AreNew ds w.items) all_ways.items → All (λ w. AreNew (ds ++ worker_deque r.0 ∷ []) w.items) r.1.items) }
{
    let mut owner = Owner::fifo_as(alloc, capacity)?;
    let mut more = Vec::with_capacity(alloc, all_ways.len())?;
    let mut left = all_ways;
    while let Some(ways) = left.pop() {
        let thief = Thief::new(&mut owner)?;
        more.push(thief.join(ways)?)?;
    }
    Ok((owner, more))
}

/// What each worker works with: a pass of the lock with one part, a deque, the ways to all deques, and room to keep all tasks.
pub(crate) fn hands<T: Task>(
    alloc: Global,
    lock: &Lock<Board<T>>,
    pass: &mut Pass<Board<T>, WorkerView>,
    owners: Vec<Owner<T>>,
    all_ways: Vec<Ways<T>>,
    count: usize,
) -> Result<Vec<Hand<T>>, AllocError>
    requires pass { IsPassOf lock.now pass.old × ((view pass.old).parts ≡ all_parts) × (vec_len owners < all_parts) }
    requires owners { All (λ o. worker_view o ≡ account (all_parts - vec_len owners) [] [] 0) owners.items }
    requires ways { (vec_len all_ways ≡ vec_len owners) × All (λ w. AreNew (map (λ o. worker_deque o) owners.items) w.items) all_ways.items }
    ensures pass { IfOk result (λ r. IsPassOf lock.now pass.new × (view pass.new ≡ with_parts (all_parts - vec_len owners) (view pass.old))) }
    ensures hands { IfOk result (λ r. (vec_len r ≡ vec_len owners) × All (λ x. IsPassOf lock.now x.pass) r.items × AreShapes (vec_len owners) (hand_shapes r.items)) }
    ensures none { IfOk result (λ r. (h : ℕ → ℕ) → (hands_taken r.items h ≡ 0) × (hands_given T.number r.items h ≡ 0)) }
{
    let mut hands = Vec::with_capacity(alloc, owners.len())?;
    let mut left = owners;
    let mut ways_left = all_ways;
    while let Some(owner) = left.pop() {
        let Some(thieves) = ways_left.pop() else {
            unreachable!()
        };
        let kept = VecDeque::with_capacity(alloc, count)?;
        let pass = lock.another::<OnePart>(pass);
        let share = Share {
            owner,
            thieves,
            kept,
        };
        hands.push(Hand { pass, share })?;
    }
    hands.reverse();
    Ok(hands)
}

/// Lays all tasks into the deques of the workers where they start, in their order.
pub(crate) fn deal<T: Task, R: Wait>(rt: &R, hands: &mut Vec<Hand<T>>, tasks: Vec<T>)
    requires { 0 < vec_len hands.old }
    ensures moves { HandsMove T.number hands.old.items hands.new.items (λ h. weigh h (map T.number tasks.items)) (λ h. 0) }
    ensures passes { map (λ x. x.pass) hands.new.items ≡ map (λ x. x.pass) hands.old.items }
{
    let count = tasks.len() as u64;
    let mut left = tasks;
    left.reverse();
    while let Some(task) = left.pop() {
        let index = first_worker(task.number(), hands.len(), count);
        lay_at(rt, hands, index, task);
    }
}

/// Lays a task into the deque of this worker.
fn lay_at<T: Task, R: Wait>(rt: &R, hands: &mut Vec<Hand<T>>, index: usize, task: T)
    requires { index < vec_len hands.old }
    ensures moves { HandsMove T.number hands.old.items hands.new.items (λ h. h (T.number task)) (λ h. 0) }
    ensures passes { map (λ x. x.pass) hands.new.items ≡ map (λ x. x.pass) hands.old.items }
{
    hands[index].share.lay(rt, task);
}

/// In whose deque a task of this number starts, of so many workers and so many tasks.
fn first_worker(number: u32, workers: usize, count: u64) -> usize
    requires { 0 < workers }
    ensures { result < workers }
{
    if count == 0 {
        return 0;
    }
    let worker = (number as u64).saturating_mul(workers as u64) / count;
    (worker as usize).min(workers - 1)
}
