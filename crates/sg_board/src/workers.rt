//! The workers.
ghost use Rattle.std.specs.Prelude.{◌≡◌, ◌+◌, ◌<◌, ◌≤◌, ℕ, [], All, IfOk, map, vec_len, vec_capacity};
ghost use Rattle.crossbeam_queue.specs.Passes.{view, IsPassOf};
ghost use Rattle.sg_board.specs.declared.progress.Progress.{Progress as ProgressOf};
ghost use Rattle.sg_board.specs.Places.{counting};
ghost use Rattle.sg_board.specs.Shares.{ShareMoves, HandMoves, HandsMove};
ghost use Rattle.sg_board.specs.Weighing.{weigh, weigh_option};

use crate::board::Board;
use crate::closing::{Left, gather_up};
use crate::dealing::{deal, hands, open};
use crate::hand::Hand;
use crate::lock::{KnowsAll, Lock, TaskHolder, give, take};
use crate::progress::Progress;
use crate::share::Share;
use crate::task::Task;
use crate::waiting::{News, is_stopped, last_news, tell_all, tell_news, tell_stop, wait_for_news};
use std::alloc::{AllocError, Global};
use std::sync::Wait;
use std::thread;
use std::thread::Threads;

/// Runs tasks in so many threads, each of which has one task at a time, until no step is left of any, or one told that all
/// are to stop: then each worker ends before its next step. All tasks come back in their order. The tasks are listed by their
/// numbers, which a step keeps.
///
/// Of `c` tasks, task `i` starts in the deque of worker `i * workers / c`, rounded down. A worker takes from its own deque,
/// and where that is empty from the first of the others that has a task. It keeps its task as long as that goes on and lets no
/// other go on. A task that rests lies on the board behind those that rest there already, and is taken from there by a worker
/// that finds no task in a deque: so all that are woken come before it. A worker sleeps while no task is ready. A task that waits is ready again once a step names it as woken, also where
/// that step came before the task was put back, and then stands in the deque of the worker that made this step; and where no
/// task is ready or at a worker, those that wait go on anew. Where a thread cannot be started, the others take its tasks.
/// Takes memory for each two workers and for each worker and task at the beginning, and is refused it there alone: a task that
/// a deque has no memory for stays at its worker. Each step costs what the task's does, and where the task does not go on
/// constant time under the lock, and more for each task that it wakes. Where a worker has no ready task of its own, it looks at
/// the deques of all a bounded number of times.
pub fn run<T: Task + Send, F: Fn(T) -> (T, Progress) + Sync, R: Threads + Wait + Sync>(
    rt: &R,
    alloc: Global,
    tasks: Vec<T>,
    workers: u32,
    step: &F,
) -> Result<Vec<T>, AllocError>
    requires steps { (t : T) → F.pre step.now t }
    requires keeps { (t : T) (r : T × ProgressOf) → F.post step.now t r → T.number r.0 ≡ T.number t }
    requires numbered { map T.number tasks.items ≡ counting 0 T.total }
    ensures { IfOk result (λ v. map T.number v.items ≡ counting 0 T.total) }
{
    if workers == 0 {
        return Ok(tasks);
    }
    let count = tasks.len();
    let room = Vec::with_capacity(alloc, count)?;
    let owner_room = Vec::with_capacity(alloc, workers as usize)?;
    let way_room = Vec::with_capacity(alloc, workers as usize)?;
    let spare = Vec::with_capacity(alloc, workers as usize)?;
    let board = Board::new(alloc, count)?;
    let (owners, ways) = open(alloc, workers, count / workers as usize)?;
    let made = Lock::<Board<T>>::ruled(alloc, 1)?;
    let (lock, mut pass) = made;
    let mut hands = hands(alloc, &lock, &mut pass, owners, ways, count)?;
    deal(rt, &mut hands, tasks);
    give(rt, &lock, &mut pass, board);
    let hands = work_all::<T, F, R>(rt, step, &lock, hands)?;
    let mut board = take(rt, &lock, &mut pass);
    let left = Left {
        owners: owner_room,
        ways: way_room,
        spare,
    };
    gather_up(rt, &lock, &mut pass, &mut board, hands, left);
    lock.learn_as::<KnowsAll>(&mut pass);
    Ok(board.into_tasks(room))
}

/// Lets each worker work until all is over, in a thread of its own where one can be started.
fn work_all<T: Task + Send, F: Fn(T) -> (T, Progress) + Sync, R: Threads + Wait + Sync>(
    rt: &R,
    step: &F,
    lock: &Lock<Board<T>>,
    hands: Vec<Hand<T>>,
) -> Result<Vec<Hand<T>>, AllocError>
    requires steps { (t : T) → F.pre step.now t }
    requires keeps { (t : T) (r : T × ProgressOf) → F.post step.now t r → T.number r.0 ≡ T.number t }
    requires passes { All (λ x. IsPassOf lock.now x.pass) hands.items }
    ensures passes { IfOk result (λ r. (vec_len r ≡ vec_len hands) × All (λ x. IsPassOf lock.now x.pass) r.items) }
    ensures moves { IfOk result (λ r. HandsMove T.number hands.items r.items (λ h. 0) (λ h. 0)) }
{
    let news = News::new();
    let worked = thread::map_vec(
        rt,
        hands,
        &|hand: Hand<T>| -> Hand<T>
            requires { IsPassOf lock.now hand.pass × ((t : T) → F.pre step.now t) × ((t : T) (r : T × ProgressOf) → F.post step.now t r → T.number r.0 ≡ T.number t) }
            ensures { IsPassOf lock.entry.now result.pass × HandMoves T.number hand result (λ h. 0) (λ h. 0) }
        { work::<T, F, R>(rt, step, lock, &news, hand) },
    )?;
    Ok(worked)
}

/// Works until all is over.
fn work<T: Task, F: Fn(T) -> (T, Progress), R: Wait>(
    rt: &R,
    step: &F,
    lock: &Lock<Board<T>>,
    news: &News,
    hand: Hand<T>,
) -> Hand<T>
    requires steps { (t : T) → F.pre step.now t }
    requires keeps { (t : T) (r : T × ProgressOf) → F.post step.now t r → T.number r.0 ≡ T.number t }
    requires pass { IsPassOf lock.now hand.pass }
    ensures pass { IsPassOf lock.now result.pass }
    ensures moves { HandMoves T.number hand result (λ h. 0) (λ h. 0) }
{
    let mut hand = hand;
    for _ in rt.forever() {
        if !work_once::<T, F, R>(rt, step, lock, news, &mut hand) {
            return hand;
        }
    }
    unreachable!()
}

/// Steps of a task, where one is ready, and otherwise a wait for one. False where all is over.
fn work_once<T: Task, F: Fn(T) -> (T, Progress), R: Wait>(
    rt: &R,
    step: &F,
    lock: &Lock<Board<T>>,
    news: &News,
    hand: &mut Hand<T>,
) -> bool
    requires steps { (t : T) → F.pre step.now t }
    requires keeps { (t : T) (r : T × ProgressOf) → F.post step.now t r → T.number r.0 ≡ T.number t }
    requires pass { IsPassOf lock.now hand.old.pass }
    ensures pass { IsPassOf lock.now hand.new.pass }
    ensures moves { HandMoves T.number hand.old hand.new (λ h. 0) (λ h. 0) }
{
    let seen = last_news(news);
    if is_stopped(news) {
        return false;
    }
    let Some(task) = hand.share.next() else {
        return rest(rt, lock, news, hand, seen);
    };
    let (task, told) = run_on::<T, F, R>(rt, step, news, task);
    if told.stops_all() {
        tell_stop(news);
    }
    let ready = put_back(rt, lock, hand, task, told);
    tell_news(news, ready);
    true
}

/// Steps of a task, until it does not go on, or lets others go on, or every task is to stop.
fn run_on<T: Task, F: Fn(T) -> (T, Progress), R: Wait>(
    rt: &R,
    step: &F,
    news: &News,
    task: T,
) -> (T, Progress)
    requires steps { (t : T) → F.pre step.now t }
    requires keeps { (t : T) (r : T × ProgressOf) → F.post step.now t r → T.number r.0 ≡ T.number t }
    ensures { T.number result.0 ≡ T.number task }
{
    let mut task = task;
    for _ in rt.forever() {
        let (next, told) = step(task);
        if !told.goes() || !next.woken().is_empty() || is_stopped(news) {
            return (next, told);
        }
        task = next;
    }
    unreachable!()
}

/// What a worker does that found no task in a deque: it takes the one that rests longest, sleeps while others have tasks, lets
/// those go on anew that wait where nobody has one, and ends where none waits either. False where it ends.
fn rest<T: Task, R: Wait>(
    rt: &R,
    lock: &Lock<Board<T>>,
    news: &News,
    hand: &mut Hand<T>,
    seen: u64,
) -> bool
    requires pass { IsPassOf lock.now hand.old.pass }
    ensures pass { IsPassOf lock.now hand.new.pass }
    ensures moves { HandMoves T.number hand.old hand.new (λ h. 0) (λ h. 0) }
{
    let mut board = take(rt, lock, &mut hand.pass);
    if board.has_resting() {
        let resting = board.take_resting();
        give(rt, lock, &mut hand.pass, board);
        let _laid = lay_ready(rt, &mut hand.share, resting);
        return true;
    }
    if board.has_away() {
        give(rt, lock, &mut hand.pass, board);
        wait_for_news(rt, news, seen);
        return true;
    }
    let renewed = lay_waiting(rt, &mut board, &mut hand.share);
    give(rt, lock, &mut hand.pass, board);
    if renewed == 0 {
        tell_stop(news);
        return false;
    }
    tell_all(news);
    true
}

/// Lets those tasks go on that the task woke, and puts the task back after a step that told this. How many more tasks are
/// ready now.
fn put_back<T: Task, R: Wait>(
    rt: &R,
    lock: &Lock<Board<T>>,
    hand: &mut Hand<T>,
    task: T,
    told: Progress,
) -> u64
    requires pass { IsPassOf lock.now hand.old.pass }
    ensures pass { IsPassOf lock.now hand.new.pass }
    ensures moves { HandMoves T.number hand.old hand.new (λ h. h (T.number task)) (λ h. 0) }
{
    let mut board = take(rt, lock, &mut hand.pass);
    let woken = lay_woken(rt, &mut board, &mut hand.share, task.woken());
    let back = board.put(task, told);
    give(rt, lock, &mut hand.pass, board);
    let laid = lay_ready(rt, &mut hand.share, back);
    woken.saturating_add(ready_after(told, laid))
}

/// How many tasks are ready of one that was put back after a step that told this, where so many came back: one that rests is.
fn ready_after(told: Progress, laid: u64) -> u64 {
    if told.rests() { 1 } else { laid }
}

/// Lets all tasks go on anew that wait. How many there are.
fn lay_waiting<T: Task, R: Wait>(rt: &R, board: &mut Board<T>, share: &mut Share<T>) -> u64
    ensures { ShareMoves T.number share.old share.new (λ h. weigh h (⟦<Board<T> as TaskHolder>⟧.numbers board.old)) (λ h. weigh h (⟦<Board<T> as TaskHolder>⟧.numbers board.new)) }
{
    let mut renewed: u64 = 0;
    for number in 0..u32::MAX {
        if number as usize >= board.len() {
            return renewed;
        }
        let waiting = board.renew(number);
        renewed = renewed.saturating_add(lay_ready(rt, share, waiting));
    }
    renewed
}

/// Lets these tasks go on: those that wait are laid into the worker's deque, and those that are with the workers will not wait
/// after their next step. How many became ready.
fn lay_woken<T: Task, R: Wait>(
    rt: &R,
    board: &mut Board<T>,
    share: &mut Share<T>,
    numbers: &[u32],
) -> u64
    ensures { ShareMoves T.number share.old share.new (λ h. weigh h (⟦<Board<T> as TaskHolder>⟧.numbers board.old)) (λ h. weigh h (⟦<Board<T> as TaskHolder>⟧.numbers board.new)) }
{
    let mut woken: u64 = 0;
    for number in numbers {
        let waiting = board.wake(*number);
        woken = woken.saturating_add(lay_ready(rt, share, waiting));
    }
    woken
}

/// Lays a task into the worker's deque, where there is one. How many there are.
fn lay_ready<T: Task, R: Wait>(rt: &R, share: &mut Share<T>, task: Option<T>) -> u64
    ensures { ShareMoves T.number share.old share.new (λ h. weigh_option T.number h task) (λ h. 0) }
{
    let Some(task) = task else {
        return 0;
    };
    share.lay(rt, task);
    1
}
