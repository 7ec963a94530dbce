//! Units that one thread has in hand, once the workers are done.

ghost use Rattle.std.specs.Prelude.{◌≡◌, ◌≤◌, Some, IfOk, OnOk, All, [], length, map, vec_capacity, false, true};
ghost use Rattle.sg_board.specs.Places.{counting};
ghost use Rattle.sg_pool.specs.Pool.{IsOver, IsKeptJob, has_ended};

use crate::job::{Job, step_job};
use crate::site::Site;
use sg_unit::{Desk, Gate, Unit};
use std::alloc::AllocError;
use std::sync::Wait;
use std::thread::Threads;

/// Steps of all units in turn, until each has ended, an entry of one was answered that every live unit waits, or want of
/// memory was met.
pub(crate) fn finish<
    U: Unit,
    K: Desk<Inst = U::Inst, Outcome = U::Outcome>,
    N: Site<U, K>,
    G: Gate,
    R: Threads + Wait + Sync,
>(rt: &R, desk: &K, gate: &G, jobs: Vec<Job<U, K, N>>) -> Result<Vec<Job<U, K, N>>, AllocError>
    requires desk { N.desk ≡ Some desk.now }
    requires numbered { map (λ j. K.Place.number j.seat) jobs.items ≡ counting 0 (length N.start) }
    ensures numbered { IfOk result (λ v. map (λ j. K.Place.number j.seat) v.items ≡ counting 0 (length N.start)) }
    ensures going { IfOk result (λ v. All (λ j. j.failed ≡ false) v.items) }
    ensures over { IfOk result (λ v. IsOver v.items) }
{
    let mut jobs = jobs;
    for _ in rt.forever() {
        check_memory(jobs.as_slice())?;
        if have_all_ended(jobs.as_slice()) {
            return Ok(jobs);
        }
        if is_some_stuck(jobs.as_slice()) {
            return Ok(jobs);
        }
        step_each::<U, K, N, G, R>(rt, desk, gate, &mut jobs);
    }
    unreachable!()
}

/// Whether no unit met want of memory.
fn check_memory<U: Unit, K: Desk<Inst = U::Inst, Outcome = U::Outcome>, N: Site<U, K>>(
    jobs: &[Job<U, K, N>],
) -> Result<(), AllocError>
    ensures { OnOk result (All (λ j. j.failed ≡ false) jobs.now) }
{
    for job in jobs {
        if job.has_failed() {
            return Err(AllocError);
        }
    }
    Ok(())
}

/// Whether each unit has ended.
fn have_all_ended<U: Unit, K: Desk<Inst = U::Inst, Outcome = U::Outcome>, N: Site<U, K>>(
    jobs: &[Job<U, K, N>],
) -> bool
    ensures { result ≡ true → All (λ j. has_ended j.doing ≡ true) jobs.now }
{
    for job in jobs {
        if !job.has_ended() {
            return false;
        }
    }
    true
}

/// Whether some entry was answered that every live unit waits.
fn is_some_stuck<U: Unit, K: Desk<Inst = U::Inst, Outcome = U::Outcome>, N: Site<U, K>>(
    jobs: &[Job<U, K, N>],
) -> bool
    ensures { result ≡ true → IsOver jobs.now }
{
    for job in jobs {
        if job.is_stuck() {
            return true;
        }
    }
    false
}

/// A step of each unit.
fn step_each<
    U: Unit,
    K: Desk<Inst = U::Inst, Outcome = U::Outcome>,
    N: Site<U, K>,
    G: Gate,
    R: Threads + Wait + Sync,
>(rt: &R, desk: &K, gate: &G, jobs: &mut Vec<Job<U, K, N>>)
    requires desk { N.desk ≡ Some desk.now }
    ensures numbered { map (λ j. K.Place.number j.seat) jobs.new.items ≡ map (λ j. K.Place.number j.seat) jobs.old.items }
{
    for i in 0..jobs.len() {
        step_job(rt, desk, gate, &mut jobs[i]);
    }
}

/// The seats of all units.
pub(crate) fn into_seats<U: Unit, K: Desk<Inst = U::Inst, Outcome = U::Outcome>, N: Site<U, K>>(
    jobs: Vec<Job<U, K, N>>,
    room: Vec<K::Place>,
) -> Vec<K::Place>
    requires going { All (λ j. j.failed ≡ false) jobs.items }
    requires room { (room.items ≡ []) × (length jobs.items ≤ vec_capacity room) }
    ensures seats { result.items ≡ map (λ j. j.seat) jobs.items }
    ensures kept { All (IsKeptJob U.Inst.Instance U.Unit K.Place.Seat K.sits N.desk N.start) jobs.items }
{
    let mut seats = room;
    let mut left = jobs;
    while let Some(job) = left.pop() {
        seats.push_reserved(job.into_seat());
    }
    seats.reverse();
    seats
}
