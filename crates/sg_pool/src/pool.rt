ghost use Rattle.std.specs.Prelude.{◌≡◌, ◌≤◌, Some, IfOk, All, [], length, map, vec_capacity, false};
ghost use Rattle.sg_pool.specs.Pool.{AreNumbered, ArePooled};

use crate::finishing::{finish, into_seats};
use crate::job::{Job, step_job};
use crate::running::Running;
use crate::site::Site;
use sg_base::Instance;
use sg_board::{Progress, run};
use sg_unit::{Desk, Gate, Unit};
use std::alloc::{AllocError, Global};
use std::marker::Brand;
use std::sync::Wait;
use std::thread::Threads;

/// Runs units at a desk, in so many threads, until each has ended, or an entry of one was answered that every live unit
/// waits. The units are listed by the numbers of their seats, which come back in the same order. Want of memory may be met at
/// any step; the units and their seats are gone then.
///
/// A worker has one unit in hand at a time, and keeps it as long as that goes on. A unit that has given the last write of a
/// group (`Unit::has_written`) goes on once no other unit is ready but such as have written too. A unit that waits is in nobody's hand until
/// another unit's reply names it as woken. Where no unit is ready or in hand, those that wait go on anew: at a desk that
/// tells them to wait for ever, this does not return. Where a thread cannot be started, the other workers take its units.
/// The gate is told of each step of a unit before and after it, and of steps of several units at once. Each step costs what
/// `step` costs. Laying a unit down takes constant time, and more for each unit that is woken; taking one up takes constant
/// time, and more for each worker where the worker has no ready unit of its own.
/// Each unit and its seat are moved to the heap at the beginning, and from there only at the end.
pub fn run_pool<
    U: Unit + Send,
    K: Desk<Inst = U::Inst, Outcome = U::Outcome> + Sync,
    G: Gate,
    Rt: Threads + Wait + Sync,
>(
    rt: &Rt,
    alloc: Global,
    desk: &K,
    units: Vec<Running<U, K::Place>>,
    workers: u32,
    gate: &G,
) -> Result<Vec<K::Place>, AllocError>
where
    U::Inst: Send,
    <U::Inst as Instance>::Datum: Send + Sync,
    <U::Inst as Instance>::Pred: Send,
    U::Outcome: Send,
    K::Place: Send,
    requires workers { 1 ≤ workers }
    requires numbered { AreNumbered K.Place.number units.items }
    requires seats { All (λ r. K.sits desk.now r.seat × (r.failed ≡ false)) units.items }
    ensures { IfOk result (λ v. ArePooled U.Inst.Instance U.Unit K.Place.Seat K.sits desk.now units.items v.items) }
{
    run_at::<U, K, G, Rt, Brand>(rt, alloc, desk, units, workers, gate)
}

/// The same, under a site with this desk and these units.
fn run_at<
    U: Unit + Send,
    K: Desk<Inst = U::Inst, Outcome = U::Outcome> + Sync,
    G: Gate,
    Rt: Threads + Wait + Sync,
    N: Site<U, K> + Send,
>(
    rt: &Rt,
    alloc: Global,
    desk: &K,
    units: Vec<Running<U, K::Place>>,
    workers: u32,
    gate: &G,
) -> Result<Vec<K::Place>, AllocError>
where
    U::Inst: Send,
    <U::Inst as Instance>::Datum: Send + Sync,
    <U::Inst as Instance>::Pred: Send,
    U::Outcome: Send,
    K::Place: Send,
    requires desk { N.desk ≡ Some desk.now }
    requires start { N.start ≡ map (λ r. r.unit) units.items }
    requires numbered { AreNumbered K.Place.number units.items }
    requires seats { All (λ r. K.sits desk.now r.seat) units.items }
    ensures { IfOk result (λ v. ArePooled U.Inst.Instance U.Unit K.Place.Seat K.sits desk.now units.items v.items) }
{
    let room = Vec::with_capacity(alloc, units.len())?;
    let seats = Vec::with_capacity(alloc, units.len())?;
    let jobs = as_jobs::<U, K, N>(alloc, desk, units, room)?;
    let step = |job: Job<U, K, N>| -> (Job<U, K, N>, Progress)
        requires { N.desk ≡ Some desk.now }
        ensures { K.Place.number result.0.seat ≡ K.Place.number job.seat }
    { take_step::<U, K, N, G, Rt>(rt, desk, gate, job) };
    let jobs = run(rt, alloc, jobs, workers, &step)?;
    let jobs = finish::<U, K, N, G, Rt>(rt, desk, gate, jobs)?;
    Ok(into_seats(jobs, seats))
}

/// A step of a unit at its desk, where one is left, and what it told.
fn take_step<
    U: Unit,
    K: Desk<Inst = U::Inst, Outcome = U::Outcome>,
    N: Site<U, K>,
    G: Gate,
    Rt: Threads + Wait + Sync,
>(rt: &Rt, desk: &K, gate: &G, job: Job<U, K, N>) -> (Job<U, K, N>, Progress)
    requires { N.desk ≡ Some desk.now }
    ensures { K.Place.number result.0.seat ≡ K.Place.number job.seat }
{
    let mut job = job;
    let told = step_job(rt, desk, gate, &mut job);
    (job, told)
}

/// The units as those of the site's run, each on the heap. Want of memory drops them.
fn as_jobs<U: Unit, K: Desk<Inst = U::Inst, Outcome = U::Outcome>, N: Site<U, K>>(
    alloc: Global,
    desk: &K,
    units: Vec<Running<U, K::Place>>,
    room: Vec<Job<U, K, N>>,
) -> Result<Vec<Job<U, K, N>>, AllocError>
    requires desk { N.desk ≡ Some desk.now }
    requires start { N.start ≡ map (λ r. r.unit) units.items }
    requires numbered { AreNumbered K.Place.number units.items }
    requires seats { All (λ r. K.sits desk.now r.seat) units.items }
    requires room { (room.items ≡ []) × (length units.items ≤ vec_capacity room) }
    ensures { IfOk result (λ v. v.items ≡ units.items) }
{
    let mut jobs = room;
    let mut left = units;
    while let Some(running) = left.pop() {
        let job = Job::new(alloc, running)?;
        jobs.push_reserved(job);
    }
    jobs.reverse();
    Ok(jobs)
}
