//! A worker's deque, and its rule.

use crate::task::Task;
use crate::worker_view::WorkerView;
use crossbeam_deque::Worker;
use crossbeam_deque::protocol::{Outcome, Protocol};
use std::alloc::Global;

/// The rule of a deque: in it are the tasks that were given to it and not taken from it.
pub(crate) struct DequeRule;

impl<T: Task> Protocol<T, WorkerView> for DequeRule {
    ghost use Rattle.std.specs.Prelude.{[], ◌∷◌};
    ghost use Rattle.sg_board.specs.Weighing.{Kept, account, all_parts};

    ghost holds = { Kept (λ t. T.number t ∷ []) };

    ghost first = { account all_parts [] [] 0 };

    ghost guest = { account 0 [] [] 0 };
}

/// Tasks are given to the deque.
pub(crate) struct GivesTasks;

impl<T: Task> Outcome<T, WorkerView> for GivesTasks {
    ghost use Rattle.std.specs.Prelude.{map};
    ghost use Rattle.sg_board.specs.Weighing.{Gave};

    ghost then = { λ v xs w. Gave v (map T.number xs) v.boards w };
}

/// Tasks are taken from it. Who finds none and has every part knows that all were taken.
pub(crate) struct TakesTasks;

impl<T: Task> Outcome<T, WorkerView> for TakesTasks {
    ghost use Rattle.std.specs.Prelude.{map};
    ghost use Rattle.sg_board.specs.Weighing.{Took, IsBalanced};

    ghost then = { λ v xs w. Took v (map T.number xs) v.boards w };

    ghost empty = { IsBalanced };
}

/// Tasks are taken from it by a pass that need not know more.
pub(crate) struct StealsTasks;

impl<T: Task> Outcome<T, WorkerView> for StealsTasks {
    ghost use Rattle.std.specs.Prelude.{map};
    ghost use Rattle.sg_board.specs.Weighing.{Took};

    ghost then = { λ v xs w. Took v (map T.number xs) v.boards w };
}

/// A worker's deque, whose worker takes tasks in the order in which it laid them there.
pub(crate) type Owner<T> = Worker<T, Global, WorkerView, DequeRule>;
