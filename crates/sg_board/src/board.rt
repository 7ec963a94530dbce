//! The tasks under the lock.
ghost use Rattle.std.specs.Prelude.{◌≡◌, ◌+◌, ◌≤◌, ℕ, [], map, vec_capacity, IfOk};

use crate::lock::TaskHolder;
use crate::places::Places;
use crate::progress::Progress;
use crate::task::Task;
use std::alloc::{AllocError, Global};
use std::collections::VecDeque;

/// The tasks that rest, wait or have ended. The others are with the workers: ready, or at one that makes their steps.
#[derive(Drop)]
pub(crate) struct Board<T: Task> {
    pub(crate) places: Places<T>,
    /// How many tasks are with the workers.
    away: u64,
    /// The numbers of the tasks that rest, in the order in which they came to. There is room for all.
    resting: VecDeque<u32>,
}

impl<T: Task> TaskHolder for Board<T> {
    ghost use Rattle.sg_board.specs.Places.{numbers_at};

    ghost numbers = { λ b. numbers_at T.number b.places.places.items };
}

impl<T: Task> Board<T> {
    ghost use Rattle.std.specs.Prelude.{◌≡◌, ◌+◌, ◌≤◌, ℕ, [], map, vec_capacity, IfOk};
    ghost use Rattle.sg_board.specs.Weighing.{weigh, weigh_option, IsPutDown};
    ghost use Rattle.sg_board.specs.Places.{numbers_at, counting};

    /// A board for so many tasks, which are with the workers.
    pub(crate) fn new(alloc: Global, count: usize) -> Result<Board<T>, AllocError>
        requires { count ≡ T.total }
        ensures { IfOk result (λ b. numbers_at T.number b.places.places.items ≡ []) }
    {
        let places = Places::new(alloc, count)?;
        let away = count as u64;
        let resting = VecDeque::with_capacity(alloc, count)?;
        Ok(Board {
            places,
            away,
            resting,
        })
    }

    /// How many tasks the run has.
    pub(crate) fn len(&self) -> usize {
        self.places.len()
    }

    /// Whether some task is in a deque or at a worker.
    pub(crate) fn has_away(&self) -> bool {
        self.away > 0
    }

    /// Lets the task of this number go on, if there is one, and hands it out where it waits. Where it is with the workers, it
    /// will not wait after its next step.
    pub(crate) fn wake(&mut self, number: u32) -> Option<T>
        ensures { (h : ℕ → ℕ) → weigh_option T.number h result + weigh h (⟦<Board<T> as TaskHolder>⟧.numbers self.new) ≡ weigh h (⟦<Board<T> as TaskHolder>⟧.numbers self.old) }
    {
        self.hand_out(number, true)
    }

    /// Whether some task rests.
    pub(crate) fn has_resting(&self) -> bool {
        !self.resting.is_empty()
    }

    /// Hands out the task that rests longest.
    pub(crate) fn take_resting(&mut self) -> Option<T>
        ensures { (h : ℕ → ℕ) → weigh_option T.number h result + weigh h (⟦<Board<T> as TaskHolder>⟧.numbers self.new) ≡ weigh h (⟦<Board<T> as TaskHolder>⟧.numbers self.old) }
    {
        let number = self.resting.pop_front()?;
        let task = self.places.take_resting(number);
        if task.is_some() {
            self.away = self.away.saturating_add(1);
        }
        task
    }

    /// Hands out the task of this number where it waits.
    pub(crate) fn renew(&mut self, number: u32) -> Option<T>
        ensures { (h : ℕ → ℕ) → weigh_option T.number h result + weigh h (⟦<Board<T> as TaskHolder>⟧.numbers self.new) ≡ weigh h (⟦<Board<T> as TaskHolder>⟧.numbers self.old) }
    {
        self.hand_out(number, false)
    }

    /// Hands out the task of this number where it waits. Where it is with the workers, it is noted as woken or not.
    fn hand_out(&mut self, number: u32, notes: bool) -> Option<T>
        ensures { (h : ℕ → ℕ) → weigh_option T.number h result + weigh h (⟦<Board<T> as TaskHolder>⟧.numbers self.new) ≡ weigh h (⟦<Board<T> as TaskHolder>⟧.numbers self.old) }
    {
        let task = self.places.take_waiting(number, notes)?;
        self.away = self.away.saturating_add(1);
        Some(task)
    }

    /// Lays a task down after a step that told this. It comes back where it is ready and does not rest.
    pub(crate) fn put(&mut self, task: T, told: Progress) -> Option<T>
        ensures { IsPutDown T.number task result (⟦<Board<T> as TaskHolder>⟧.numbers self.old) (⟦<Board<T> as TaskHolder>⟧.numbers self.new) }
    {
        let told = line_up(&mut self.resting, task.number(), told);
        let ready = self.places.put(task, told);
        if ready.is_none() {
            self.away = self.away.saturating_sub(1);
        }
        ready
    }

    /// All tasks in their order, once all are back.
    pub(crate) fn into_tasks(self, room: Vec<T>) -> Vec<T>
        requires back { (h : ℕ → ℕ) → weigh h (⟦<Board<T> as TaskHolder>⟧.numbers self) ≡ weigh h (counting 0 T.total) }
        requires room { (room.items ≡ []) × (T.total ≤ vec_capacity room) }
        ensures { map T.number result.items ≡ counting 0 T.total }
    {
        self.places.into_tasks(room)
    }
}

/// Puts the number of a task that rests behind the others. What is then told of the task: it goes on where there is no room.
fn line_up(resting: &mut VecDeque<u32>, number: u32, told: Progress) -> Progress {
    if !told.rests() {
        return told;
    }
    match resting.push_back(number) {
        Ok(()) => told,
        Err(_) => Progress::Goes,
    }
}
