ghost use Rattle.std.specs.Prelude.{◌≡◌, ◌+◌, ℕ, [], ◌∷◌, All, map, length, vec_capacity, ◌≤◌, MatchOption};
ghost use Rattle.sg_board.specs.Places.{HasTask, ArePlaced, numbers_at, task_at, counting};
ghost use Rattle.sg_board.specs.Weighing.{weigh, weigh_option};

use crate::place::Place;
use crate::progress::Progress;
use crate::task::Task;
use std::alloc::{AllocError, Global};

/// The places of all tasks, by their numbers.
#[derive(Drop)]
pub(crate) struct Places<T: Task> {
    pub(crate) places: Vec<Place<T>>,
    ghost sized: { length places.items ≡ T.total },
    ghost placed: { ArePlaced T.number places.items },
}

impl<T: Task> Places<T> {
    ghost use Rattle.std.specs.Prelude.{◌≡◌, ◌+◌, ℕ, [], All, IfOk, MatchOption, map};
    ghost use Rattle.sg_board.specs.Places.{HasTask, numbers_at, counting};
    ghost use Rattle.sg_board.specs.Weighing.{weigh, weigh_option, IsPutDown};

    /// A place for each task, with none of them there.
    pub(crate) fn new(alloc: Global, count: usize) -> Result<Places<T>, AllocError>
        requires { count ≡ T.total }
        ensures { IfOk result (λ r. numbers_at T.number r.places.items ≡ []) }
    {
        let room = Vec::with_capacity(alloc, count)?;
        let places = lay_out(count, room);
        Ok(Places { places })
    }

    /// How many places there are.
    pub(crate) fn len(&self) -> usize {
        self.places.len()
    }

    /// Takes the task of this number, if it waits. Where it is with the workers, it is noted as woken or not.
    pub(crate) fn take_waiting(&mut self, number: u32, notes: bool) -> Option<T>
        ensures { (h : ℕ → ℕ) → weigh_option T.number h result + weigh h (numbers_at T.number self.new.places.items) ≡ weigh h (numbers_at T.number self.old.places.items) }
    {
        if number as usize >= self.places.len() {
            return None;
        }
        self.places[number as usize].take_waiting(notes)
    }

    /// Takes the task of this number, if it rests.
    pub(crate) fn take_resting(&mut self, number: u32) -> Option<T>
        ensures { (h : ℕ → ℕ) → weigh_option T.number h result + weigh h (numbers_at T.number self.new.places.items) ≡ weigh h (numbers_at T.number self.old.places.items) }
    {
        if number as usize >= self.places.len() {
            return None;
        }
        self.places[number as usize].take_resting()
    }

    /// Lays a task down after a step that told this. It comes back where it is ready and does not rest.
    pub(crate) fn put(&mut self, task: T, told: Progress) -> Option<T>
        ensures { IsPutDown T.number task result (numbers_at T.number self.old.places.items) (numbers_at T.number self.new.places.items) }
    {
        let number = task.number();
        self.places[number as usize].put(task, told)
    }

    /// All tasks in their order, once all are back.
    pub(crate) fn into_tasks(self, room: Vec<T>) -> Vec<T>
        requires back { (h : ℕ → ℕ) → weigh h (numbers_at T.number self.places.items) ≡ weigh h (counting 0 T.total) }
        requires room { (room.items ≡ []) × (T.total ≤ vec_capacity room) }
        ensures { map T.number result.items ≡ counting 0 T.total }
    {
        gather_up(self.places, room)
    }
}

/// So many places of tasks that are with the workers.
fn lay_out<T: Drop>(count: usize, room: Vec<Place<T>>) -> Vec<Place<T>>
    requires room { (room.items ≡ []) × (count ≤ vec_capacity room) }
    ensures away { All (λ p. task_at p ≡ None) result.items }
    ensures count { length result.items ≡ count }
{
    let mut places = room;
    for _number in 0..count {
        places.push_reserved(Place::Away { woken: false });
    }
    places
}

/// The tasks that lie at these places.
fn gather_up<T: Drop>(places: Vec<Place<T>>, room: Vec<T>) -> Vec<T>
    requires back { All HasTask places.items }
    requires room { (room.items ≡ []) × (length places.items ≤ vec_capacity room) }
    ensures { map (λ t. Some t) result.items ≡ map task_at places.items }
{
    let mut tasks = room;
    let mut left = places;
    while let Some(place) = left.pop() {
        tasks.push_reserved(place.into_task());
    }
    tasks.reverse();
    tasks
}
