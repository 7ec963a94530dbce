ghost use Rattle.std.specs.Prelude.{◌≡◌, ◌-◌, ◌<◌, [], IfOk};
ghost use Rattle.crossbeam_deque.specs.Handles.{view, IsPassOf, stealer_deque, worker_deque, worker_view};
ghost use Rattle.sg_board.specs.Weighing.{account, Took};

use crate::lock::OnePart;
use crate::owner::{DequeRule, Owner, StealsTasks};
use crate::task::Task;
use crate::worker_view::WorkerView;
use crossbeam_deque::{Pass, Steal, Stealer};
use std::alloc::{AllocError, Global};

/// A worker's way to the tasks in a deque.
#[derive(Drop)]
pub(crate) struct Thief<T: Task> {
    pub(crate) stealer: Stealer<T, Global, WorkerView, DequeRule>,
    pub(crate) pass: Pass<T, WorkerView>,
    ghost fits: { IsPassOf (stealer_deque stealer) pass },
    ghost part: { (view pass).parts ≡ 1 },
}

impl<T: Task> Thief<T> {
    ghost use Rattle.std.specs.Prelude.{◌≡◌, ◌-◌, ◌<◌, List, [], ◌∷◌, ◌++◌, IfOk};
    ghost use Rattle.sg_board.specs.Shapes.{DequeId};
    ghost use Rattle.sg_board.specs.Shares.{AreNew};
    ghost use Rattle.crossbeam_deque.specs.Handles.{view, IsPassOf, stealer_deque, worker_deque, worker_view};
    ghost use Rattle.sg_board.specs.Weighing.{account, with_parts, TookOption};

    /// A way to this deque.
    pub(crate) fn new(owner: &mut Owner<T>) -> Result<Thief<T>, AllocError>
        requires { 1 < (worker_view owner.old).parts }
        ensures same { worker_deque owner.new ≡ worker_deque owner.old }
        ensures view { IfOk result (λ t. worker_view owner.new ≡ with_parts ((worker_view owner.old).parts - 1) (worker_view owner.old)) }
        ensures thief { IfOk result (λ t. (stealer_deque t.stealer ≡ worker_deque owner.old) × (view t.pass ≡ account 1 [] [] 0)) }
    {
        let stealer = owner.stealer()?;
        let pass = owner.another::<OnePart>();
        Ok(Thief { stealer, pass })
    }

    /// Takes the first task, where there is one, and otherwise tells whether the deque was seen empty.
    pub(crate) fn steal(&mut self) -> (Option<T>, bool)
        ensures same { stealer_deque self.new.stealer ≡ stealer_deque self.old.stealer }
        ensures stolen { TookOption T.number (view self.old.pass) result.0 (view self.new.pass) }
    {
        match self.stealer.steal_as::<StealsTasks>(&mut self.pass) {
            Steal::Success(task) => (Some(task), true),
            Steal::Empty => (None, true),
            Steal::Retry => (None, false),
        }
    }

    /// These ways, and this one behind them.
    pub(crate) fn join(self, ways: Vec<Thief<T>>) -> Result<Vec<Thief<T>>, AllocError>
        requires { view self.pass ≡ account 1 [] [] 0 }
        ensures { IfOk result (λ r. (ds : List DequeId) → AreNew ds ways.items → AreNew (ds ++ stealer_deque self.stealer ∷ []) r.items) }
    {
        let mut ways = ways;
        ways.push(self)?;
        Ok(ways)
    }
}
