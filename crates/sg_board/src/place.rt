ghost use Rattle.std.specs.Prelude.{◌≡◌, true, false, None, Some, MatchOption};
ghost use Rattle.sg_board.specs.Places.{task_at, HasTask};

use crate::progress::Progress;
use std::mem;

/// Where a task is: with the workers, and whether it was woken there; or on the board, resting, waiting or with no step left.
#[derive(Drop)]
pub(crate) enum Place<T> {
    Away { woken: bool },
    Resting(T),
    Waiting(T),
    Ended(T),
}

impl<T: Drop> Place<T> {
    /// Whether the task lies here.
    pub(crate) fn has_task(&self) -> bool
        ensures there { result ≡ true → HasTask self.now }
        ensures away { result ≡ false → task_at self.now ≡ None }
    {
        match self {
            Place::Away { .. } => false,
            Place::Resting(_) => true,
            Place::Waiting(_) => true,
            Place::Ended(_) => true,
        }
    }

    /// Whether the task was woken while it was with the workers.
    fn was_woken(&self) -> bool {
        match self {
            Place::Away { woken } => *woken,
            Place::Resting(_) => false,
            Place::Waiting(_) => false,
            Place::Ended(_) => false,
        }
    }

    /// Lays the task down after a step that told this. It comes back where it is ready and does not rest: it goes on, or was
    /// woken before it could wait. One comes back too where another lies here, which no run meets.
    pub(crate) fn put(&mut self, task: T, told: Progress) -> Option<T>
        ensures { MatchOption result ((task_at self.old ≡ None) × (task_at self.new ≡ Some task)) (λ t. (t ≡ task) × (task_at self.new ≡ task_at self.old)) }
    {
        if self.has_task() {
            return Some(task);
        }
        let woken = self.was_woken();
        match told {
            Progress::Goes => {
                *self = Place::Away { woken: false };
                Some(task)
            }
            Progress::Rests => {
                *self = Place::Resting(task);
                None
            }
            Progress::Waits if woken => {
                *self = Place::Away { woken: false };
                Some(task)
            }
            Progress::Waits => {
                *self = Place::Waiting(task);
                None
            }
            Progress::Ended => {
                *self = Place::Ended(task);
                None
            }
            Progress::StopsAll => {
                *self = Place::Waiting(task);
                None
            }
        }
    }

    /// Takes the task, if it rests.
    pub(crate) fn take_resting(&mut self) -> Option<T>
        ensures { MatchOption result (task_at self.new ≡ task_at self.old) (λ t. (task_at self.old ≡ Some t) × (task_at self.new ≡ None)) }
    {
        match mem::replace(self, Place::Away { woken: false }) {
            Place::Away { woken } => {
                *self = Place::Away { woken };
                None
            }
            Place::Resting(task) => Some(task),
            Place::Waiting(task) => {
                *self = Place::Waiting(task);
                None
            }
            Place::Ended(task) => {
                *self = Place::Ended(task);
                None
            }
        }
    }

    /// Takes the task, if it waits. Where it is with the workers, it is noted as woken or not. One that rests is ready, and stays.
    pub(crate) fn take_waiting(&mut self, notes: bool) -> Option<T>
        ensures { MatchOption result (task_at self.new ≡ task_at self.old) (λ t. (task_at self.old ≡ Some t) × (task_at self.new ≡ None)) }
    {
        match mem::replace(self, Place::Away { woken: false }) {
            Place::Away { woken } => {
                *self = Place::Away {
                    woken: woken || notes,
                };
                None
            }
            Place::Resting(task) => {
                *self = Place::Resting(task);
                None
            }
            Place::Waiting(task) => Some(task),
            Place::Ended(task) => {
                *self = Place::Ended(task);
                None
            }
        }
    }

    /// The task of a place that has it.
    pub(crate) fn into_task(self) -> T
        requires { HasTask self }
        ensures { task_at self ≡ Some result }
    {
        match self {
            Place::Away { .. } => unreachable!(),
            Place::Resting(task) => task,
            Place::Waiting(task) => task,
            Place::Ended(task) => task,
        }
    }
}
