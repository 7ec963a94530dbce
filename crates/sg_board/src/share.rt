//! A worker's share of the ready tasks.
ghost use Rattle.std.specs.Prelude.{◌≡◌, ◌<◌, ℕ, map};
ghost use Rattle.crossbeam_deque.specs.Handles.{view, worker_view, stealer_deque};
ghost use Rattle.sg_board.specs.Weighing.{PassesTook, total, given_by};

use crate::owner::{GivesTasks, Owner, TakesTasks};
use crate::task::Task;
use crate::thief::Thief;
use std::collections::VecDeque;
use std::hint;
use std::sync::Wait;

/// So often a worker looks at all deques where each time one was in use, before it takes them for empty.
const LOOKS: u32 = 64;

/// A worker's own deque, the ways to all deques, and the tasks that its deque refused.
#[derive(Drop)]
pub(crate) struct Share<T: Task> {
    pub(crate) owner: Owner<T>,
    pub(crate) thieves: Vec<Thief<T>>,
    pub(crate) kept: VecDeque<T>,
    ghost part: { 0 < (worker_view owner).parts },
}

impl<T: Task> Share<T> {
    ghost use Rattle.std.specs.Prelude.{◌≡◌, MatchResult};
    ghost use Rattle.sg_board.specs.Shares.{ShareGets, ShareMoves};
    ghost use Rattle.sg_board.specs.Weighing.{weigh_option};

    /// Lays a ready task into the deque, where the others find it too, or keeps it where the deque has no room and no memory.
    /// The room for all tasks is there, so it is the first try that serves.
    pub(crate) fn lay<R: Wait>(&mut self, rt: &R, task: T)
        ensures { ShareGets T.number self.old self.new task }
    {
        let mut task = task;
        for _ in rt.forever() {
            let Err(refused) = self.try_lay(task) else {
                return;
            };
            task = refused;
        }
        unreachable!()
    }

    /// The same, once.
    fn try_lay(&mut self, task: T) -> Result<(), T>
        ensures { MatchResult result (λ _. ShareGets T.number self.old self.new task) (λ t. (t ≡ task) × ShareMoves T.number self.old self.new (λ h. 0) (λ h. 0)) }
    {
        let Err(refused) = self.owner.push_as::<GivesTasks>(task) else {
            return Ok(());
        };
        match self.kept.push_back(refused) {
            Ok(()) => Ok(()),
            Err(failed) => Err(failed.value),
        }
    }

    /// A task that it keeps, or else one of its deque.
    fn take_own(&mut self) -> Option<T>
        ensures { ShareMoves T.number self.old self.new (λ h. 0) (λ h. weigh_option T.number h result) }
    {
        if let Some(task) = self.kept.pop_front() {
            return Some(task);
        }
        self.owner.pop_as::<TakesTasks>()
    }

    /// A task of the first deque that has one, and whether the other deques were seen empty where there is none.
    fn steal(&mut self) -> (Option<T>, bool)
        ensures { ShareMoves T.number self.old self.new (λ h. 0) (λ h. weigh_option T.number h result.0) }
    {
        steal_first(&mut self.thieves)
    }

    /// A task that it keeps, or of its deque, or of the first other deque that has one. It looks a bounded number of times.
    pub(crate) fn next(&mut self) -> Option<T>
        ensures { ShareMoves T.number self.old self.new (λ h. 0) (λ h. weigh_option T.number h result) }
    {
        for _look in 0..LOOKS {
            if let Some(task) = self.take_own() {
                return Some(task);
            }
            let (stolen, is_sure) = self.steal();
            if let Some(task) = stolen {
                return Some(task);
            }
            if is_sure {
                return None;
            }
            hint::spin_loop();
        }
        None
    }
}

/// A task of the first deque that has one, and whether all deques were seen empty where there is none.
fn steal_first<T: Task>(thieves: &mut Vec<Thief<T>>) -> (Option<T>, bool)
    ensures taken { PassesTook T.number (map (λ t. view t.pass) thieves.old.items) result.0 (map (λ t. view t.pass) thieves.new.items) }
    ensures given { (h : ℕ → ℕ) → total (given_by h) (map (λ t. view t.pass) thieves.new.items) ≡ total (given_by h) (map (λ t. view t.pass) thieves.old.items) }
    ensures same { map (λ t. stealer_deque t.stealer) thieves.new.items ≡ map (λ t. stealer_deque t.stealer) thieves.old.items }
{
    let mut is_sure = true;
    for index in 0..thieves.len() {
        let (stolen, is_empty) = thieves[index].steal();
        if let Some(task) = stolen {
            return (Some(task), true);
        }
        is_sure = is_sure && is_empty;
    }
    (None, is_sure)
}
