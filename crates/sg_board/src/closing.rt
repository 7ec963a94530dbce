//! All tasks at the end.
ghost use Rattle.std.specs.Prelude.{◌≡◌, ◌+◌, ◌<◌, ◌≤◌, ◌++◌, ◌∷◌, ℕ, List, [], All, map, vec_len, vec_capacity};
ghost use Rattle.crossbeam_queue.specs.Passes.{view, IsPassOf};
ghost use Rattle.crossbeam_deque.specs.Handles.{view as deque_view, worker_view, worker_deque, stealer_deque};
ghost use Rattle.sg_board.specs.Shapes.{DequeId, AreShapes};
ghost use Rattle.sg_board.specs.Shares.{HasRoom, IsDrained, AreDrained, AreGathered, AreTakenApart, ways, all_ways_taken, all_ways_given, hand_shape, hand_shapes};
ghost use Rattle.sg_board.specs.Weighing.{weigh, with_one_part, parts_of, given_by, taken_by, all_parts};

use crate::board::Board;
use crate::hand::Hand;
use crate::lock::{Lock, OnePart, TaskHolder};
use crate::owner::{Owner, TakesTasks};
use crate::progress::Progress;
use crate::share::Share;
use crate::task::Task;
use crate::thief::Thief;
use crate::worker_view::WorkerView;
use crossbeam_queue::Pass;
use std::collections::VecDeque;
use std::sync::Wait;

/// Room for what is left of the workers.
#[derive(Drop)]
pub(crate) struct Left<T: Task> {
    pub(crate) owners: Vec<Owner<T>>,
    pub(crate) ways: Vec<Vec<Thief<T>>>,
    pub(crate) spare: Vec<Vec<Thief<T>>>,
}

/// Lays all tasks onto the board that the workers left in the deques or kept, once no worker is left.
pub(crate) fn gather_up<T: Task, R: Wait>(
    rt: &R,
    lock: &Lock<Board<T>>,
    pass: &mut Pass<Board<T>, WorkerView>,
    board: &mut Board<T>,
    hands: Vec<Hand<T>>,
    left: Left<T>,
)
    requires pass { IsPassOf lock.now pass.old × (0 < (view pass.old).parts) }
    requires hands { All (λ x. IsPassOf lock.now x.pass) hands.items × AreShapes (vec_len hands) (hand_shapes hands.items) × (vec_len hands < all_parts) }
    requires room { HasRoom (vec_len hands) left }
    ensures pass { IsPassOf lock.now pass.new × ((view pass.new).parts ≡ (view pass.old).parts + vec_len hands) × ((view pass.new).boards ≡ (view pass.old).boards) }
    ensures all { AreGathered T.number ⟦<Board<T> as TaskHolder>⟧.numbers (view pass.old) (view pass.new) hands.items board.old board.new }
{
    let Left {
        owners,
        ways,
        spare,
    } = left;
    let mut owners = owners;
    let mut ways = ways;
    take_apart(rt, lock, pass, board, hands, &mut owners, &mut ways);
    close_all(rt, board, owners, ways, spare);
}

/// Takes the passes of all workers back, and lays all tasks onto the board that they kept. The deques come in the order of
/// their workers.
fn take_apart<T: Task, R: Wait>(
    rt: &R,
    lock: &Lock<Board<T>>,
    pass: &mut Pass<Board<T>, WorkerView>,
    board: &mut Board<T>,
    hands: Vec<Hand<T>>,
    owners: &mut Vec<Owner<T>>,
    all_ways: &mut Vec<Vec<Thief<T>>>,
)
    requires pass { IsPassOf lock.now pass.old × (0 < (view pass.old).parts) × All (λ x. IsPassOf lock.now x.pass) hands.items }
    requires room { (owners.old.items ≡ []) × (all_ways.old.items ≡ []) × (vec_len hands ≤ vec_capacity owners.old) × (vec_len hands ≤ vec_capacity all_ways.old) }
    ensures pass { IsPassOf lock.now pass.new × ((view pass.new).parts ≡ (view pass.old).parts + vec_len hands) × ((view pass.new).boards ≡ (view pass.old).boards) }
    ensures room { (vec_len all_ways.new ≡ vec_len hands) × (vec_capacity all_ways.new ≡ vec_capacity all_ways.old) }
    ensures owners { map (λ o. worker_deque o) owners.new.items ≡ map (λ x. (hand_shape x).own) hands.items }
    ensures parts { (k : ℕ) → All (λ x. (hand_shape x).parts ≡ k) hands.items → All (λ o. parts_of (worker_view o) ≡ k) owners.new.items }
    ensures ways { (ds : List DequeId) → All (λ x. (hand_shape x).ways ≡ ds) hands.items → All (λ w. ways w.items ≡ ds) all_ways.new.items }
    ensures all { AreTakenApart T.number ⟦<Board<T> as TaskHolder>⟧.numbers (view pass.old) (view pass.new) hands.items owners.new.items all_ways.new.items board.old board.new }
{
    let mut left = hands;
    while let Some(hand) = left.pop() {
        let Hand { pass: other, share } = hand;
        let Share {
            owner,
            thieves,
            kept,
        } = share;
        lock.absorb::<OnePart>(pass, other);
        lay_kept(rt, board, kept);
        owners.push_reserved(owner);
        all_ways.push_reserved(thieves);
    }
    owners.reverse();
}

/// Lays these tasks onto the board.
fn lay_kept<T: Task, R: Wait>(rt: &R, board: &mut Board<T>, kept: VecDeque<T>)
    ensures { (h : ℕ → ℕ) → weigh h (⟦<Board<T> as TaskHolder>⟧.numbers board.new) ≡ weigh h (map T.number kept.items) + weigh h (⟦<Board<T> as TaskHolder>⟧.numbers board.old) }
{
    let mut left = kept;
    while let Some(task) = left.pop_front() {
        settle(rt, board, task);
    }
}

/// Lays a task onto the board, whatever it was woken for.
fn settle<T: Task, R: Wait>(rt: &R, board: &mut Board<T>, task: T)
    ensures { (h : ℕ → ℕ) → weigh h (⟦<Board<T> as TaskHolder>⟧.numbers board.new) ≡ h (T.number task) + weigh h (⟦<Board<T> as TaskHolder>⟧.numbers board.old) }
{
    let mut task = task;
    for _ in rt.forever() {
        let Some(back) = board.put(task, Progress::Waits) else {
            return;
        };
        task = back;
    }
    unreachable!()
}

/// Lays all tasks onto the board that stand in these deques, of which all passes are here.
fn close_all<T: Task, R: Wait>(
    rt: &R,
    board: &mut Board<T>,
    owners: Vec<Owner<T>>,
    all_ways: Vec<Vec<Thief<T>>>,
    spare: Vec<Vec<Thief<T>>>,
)
    requires room { (spare.items ≡ []) × (vec_len all_ways ≤ vec_capacity all_ways) × (vec_len all_ways ≤ vec_capacity spare) × (vec_len all_ways < all_parts) }
    requires parts { All (λ o. parts_of (worker_view o) + vec_len all_ways ≡ all_parts) owners.items }
    requires ways { All (λ w. ways w.items ≡ map (λ o. worker_deque o) owners.items) all_ways.items }
    ensures { AreDrained ⟦<Board<T> as TaskHolder>⟧.numbers owners.items all_ways.items board.old board.new }
{
    let mut left = owners;
    let mut full = all_ways;
    let mut spare = spare;
    while let Some(owner) = left.pop() {
        let mut owner = owner;
        let empty = absorb_ways(&mut owner, full, &mut spare);
        full = spare;
        spare = empty;
        drain(rt, board, owner);
    }
}

/// Takes back the last way of each worker, which is one to this deque, and hands out the emptied room.
fn absorb_ways<T: Task>(
    owner: &mut Owner<T>,
    full: Vec<Vec<Thief<T>>>,
    spare: &mut Vec<Vec<Thief<T>>>,
) -> Vec<Vec<Thief<T>>>
    requires owner { 0 < (worker_view owner.old).parts }
    requires room { (spare.old.items ≡ []) × (vec_len full ≤ vec_capacity spare.old) }
    requires ways { All (λ w. (ds : List DequeId) × (ways w.items ≡ ds ++ worker_deque owner.old ∷ [])) full.items }
    ensures parts { (worker_view owner.new).parts ≡ (worker_view owner.old).parts + vec_len full }
    ensures room { (result.items ≡ []) × (vec_capacity result ≡ vec_capacity full) × (vec_len spare.new ≡ vec_len full) × (vec_capacity spare.new ≡ vec_capacity spare.old) }
    ensures ways { (ds : List DequeId) → All (λ w. ways w.items ≡ ds ++ worker_deque owner.old ∷ []) full.items → All (λ w. ways w.items ≡ ds) spare.new.items }
    ensures taken { (h : ℕ → ℕ) → taken_by h (worker_view owner.new) + all_ways_taken h spare.new.items ≡ taken_by h (worker_view owner.old) + all_ways_taken h full.items }
    ensures given { (h : ℕ → ℕ) → given_by h (worker_view owner.new) + all_ways_given h spare.new.items ≡ given_by h (worker_view owner.old) + all_ways_given h full.items }
{
    let mut left = full;
    while let Some(more) = left.pop() {
        let mut more = more;
        let Some(thief) = more.pop() else {
            unreachable!()
        };
        absorb_way(owner, thief);
        spare.push_reserved(more);
    }
    left
}

/// Takes a way back.
fn absorb_way<T: Task>(owner: &mut Owner<T>, thief: Thief<T>)
    requires { (stealer_deque thief.stealer ≡ worker_deque owner.old) × (0 < (worker_view owner.old).parts) }
    ensures same { worker_deque owner.new ≡ worker_deque owner.old }
    ensures view { worker_view owner.new ≡ with_one_part (worker_view owner.old) (deque_view thief.pass) }
{
    let Thief { stealer: _, pass } = thief;
    owner.absorb::<OnePart>(pass);
}

/// Lays all tasks of a deque onto the board, of which no other pass is left.
fn drain<T: Task, R: Wait>(rt: &R, board: &mut Board<T>, owner: Owner<T>)
    requires { (worker_view owner).parts ≡ all_parts }
    ensures { IsDrained ⟦<Board<T> as TaskHolder>⟧.numbers owner board.old board.new }
{
    let mut owner = owner;
    for _ in rt.forever() {
        let Some(task) = owner.pop_as::<TakesTasks>() else {
            return;
        };
        settle(rt, board, task);
    }
    unreachable!()
}
