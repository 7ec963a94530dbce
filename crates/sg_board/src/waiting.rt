//! Workers that wait for news of ready tasks. News only hurry them: a worker that is told of none looks when it wakes.

use std::sync::Wait;
use std::sync::atomic::{AtomicU64, Ordering};

/// What workers tell one another beside the board and the deques.
#[derive(Drop)]
pub(crate) struct News {
    /// How many news there were.
    told: AtomicU64,
    /// One where every task is to stop, and else none.
    stops: AtomicU64,
}

impl News {
    /// None yet.
    pub(crate) fn new() -> News {
        News {
            told: AtomicU64::new(0),
            stops: AtomicU64::new(0),
        }
    }
}

/// Tells all that every task is to stop.
pub(crate) fn tell_stop(news: &News) {
    news.stops.store(1, Ordering::SeqCst);
    tell_all(news);
}

/// Whether every task is to stop.
pub(crate) fn is_stopped(news: &News) -> bool {
    news.stops.load(Ordering::SeqCst) > 0
}

/// The number of the last news.
pub(crate) fn last_news(news: &News) -> u64 {
    news.told.load(Ordering::SeqCst)
}

/// Sleeps until there are news after those of this number, or for no reason a shorter time.
pub(crate) fn wait_for_news<R: Wait>(rt: &R, news: &News, seen: u64) {
    news.told.park(rt, (seen & 0xffff_ffff) as u32);
}

/// Tells those that wait of so many tasks that the teller laid into its deque or onto the board, and of which it takes one.
///
/// No task is left in a deque, or rests, while others sleep and too few are awake to take it. A worker sleeps only after it
/// found every deque empty, or others at the tasks, and after that none that rests. From then on the teller looks at its deque
/// next, and at the board where no deque has a task, whatever its own task told, and takes one task for itself, so that it has
/// none to tell of where one became ready; of each further one, one more worker is told.
/// Tasks that go on anew without a step are told of by `tell_all`.
pub(crate) fn tell_news(news: &News, ready: u64) {
    if ready <= 1 {
        return;
    }
    news.told.fetch_add(1, Ordering::SeqCst);
    if ready == 2 {
        news.told.wake_one();
    } else {
        news.told.wake_all();
    }
}

/// Tells all that wait to look.
pub(crate) fn tell_all(news: &News) {
    news.told.fetch_add(1, Ordering::SeqCst);
    news.told.wake_all();
}
