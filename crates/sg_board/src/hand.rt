ghost use Rattle.crossbeam_queue.specs.Passes.{view};
ghost use Rattle.sg_board.specs.Weighing.{IsFree};

use crate::board::Board;
use crate::share::Share;
use crate::task::Task;
use crate::worker_view::WorkerView;
use crossbeam_queue::Pass;

/// What a worker works with: its pass of the lock, and its share of the ready tasks.
#[derive(Drop)]
pub(crate) struct Hand<T: Task> {
    pub(crate) pass: Pass<Board<T>, WorkerView>,
    pub(crate) share: Share<T>,
    ghost free: { IsFree (view pass) },
}
