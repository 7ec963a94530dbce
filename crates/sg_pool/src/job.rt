ghost use Rattle.std.specs.Prelude.{◌≡◌, Some, IfOk, false};
ghost use Rattle.sg_pool.specs.declared.doing.Doing.TheVariants.{HasEnded};

use crate::after::After;
use crate::doing::Doing;
use crate::running::{Running, step};
use crate::site::Site;
use sg_board::{Progress, Task};
use sg_unit::{Desk, Gate, Seat, Unit};
use std::alloc::{AllocError, Global};
use std::marker::{Model, PhantomData};
use std::sync::Wait;
use std::thread::Threads;

/// A unit that sits at the desk of its run, under its number. It stays where it is on the heap, so that only a pointer changes
/// hands at a step. Contracts see it as the unit that is driven.
#[derive(Drop)]
pub(crate) struct Job<U: Unit, K: Desk<Inst = U::Inst, Outcome = U::Outcome>, N: Site<U, K>> {
    running: Box<Running<U, K::Place>>,
    site: PhantomData<N>,
}

impl<U: Unit, K: Desk<Inst = U::Inst, Outcome = U::Outcome>, N: Site<U, K>> Model for Job<U, K, N> {
    ghost use Rattle.sg_pool.specs.Driving.{RunningOf};
    ghost use Rattle.sg_pool.specs.Pool.{IsAtSite};

    ghost Value = { RunningOf U K.Place };

    ghost view = { λ j. j.running.value };

    ghost invariant = { λ j. IsAtSite U.fixed K.Place.number K.sits N.desk N.start j.running.value };
}

impl<U: Unit, K: Desk<Inst = U::Inst, Outcome = U::Outcome>, N: Site<U, K>> Job<U, K, N> {
    ghost use Rattle.std.specs.Prelude.{◌≡◌, IfOk, false};
    ghost use Rattle.sg_pool.specs.Pool.{IsAtSite, IsKeptJob, has_ended};

    /// A unit of the run, which is moved to the heap. Want of memory drops the unit.
    pub(crate) fn new(
        alloc: Global,
        running: Running<U, K::Place>,
    ) -> Result<Job<U, K, N>, AllocError>
        requires { IsAtSite U.fixed K.Place.number K.sits N.desk N.start running }
        ensures { IfOk result (λ j. j ≡ running) }
    {
        let running = Box::new(alloc, running)?;
        Ok(Job {
            running,
            site: PhantomData,
        })
    }

    /// Whether want of memory was met.
    pub(crate) fn has_failed(&self) -> bool
        ensures { result ≡ self.now.failed }
    {
        self.running.has_failed()
    }

    /// Whether an entry of it was answered that every live unit waits.
    pub(crate) fn is_stuck(&self) -> bool
        ensures { result ≡ self.now.stuck }
    {
        self.running.is_stuck()
    }

    /// Whether nothing comes next for the unit.
    pub(crate) fn has_ended(&self) -> bool
        ensures { result ≡ has_ended self.now.doing }
    {
        match self.running.doing() {
            Doing::HasEnded => true,
            Doing::Gives => false,
            Doing::Advances => false,
            Doing::Takes => false,
        }
    }

    /// The seat of a unit that met no want of memory.
    pub(crate) fn into_seat(self) -> K::Place
        requires going { self.failed ≡ false }
        ensures seat { result ≡ self.seat }
        ensures kept { IsKeptJob U.Inst.Instance U.Unit K.Place.Seat K.sits N.desk N.start self }
    {
        Box::into_inner(self.running).into_seat()
    }
}

impl<U: Unit, K: Desk<Inst = U::Inst, Outcome = U::Outcome>, N: Site<U, K>> Task for Job<U, K, N> {
    ghost use Rattle.std.specs.Prelude.{length};

    ghost total = { length N.start };

    ghost number = { λ j. K.Place.number j.seat };

    fn number(&self) -> u32 {
        self.running.number()
    }

    fn woken(&self) -> &[u32] {
        if self.running.has_failed() {
            return &[];
        }
        self.running.woken()
    }
}

/// A step of a unit of the run at its desk, where one is left, and what it told.
pub(crate) fn step_job<
    U: Unit,
    K: Desk<Inst = U::Inst, Outcome = U::Outcome>,
    N: Site<U, K>,
    G: Gate,
    R: Threads + Wait + Sync,
>(rt: &R, desk: &K, gate: &G, job: &mut Job<U, K, N>) -> Progress
    requires desk { N.desk ≡ Some desk.now }
    ensures number { K.Place.number job.new.seat ≡ K.Place.number job.old.seat }
{
    if job.running.has_failed() {
        return Progress::StopsAll;
    }
    match job.running.doing() {
        Doing::HasEnded => Progress::Ended,
        Doing::Gives => step_on(rt, &mut job.running, desk, gate),
        Doing::Advances => step_on(rt, &mut job.running, desk, gate),
        Doing::Takes => step_on(rt, &mut job.running, desk, gate),
    }
}

/// A step of a unit that has not ended, and what it told.
fn step_on<
    U: Unit,
    K: Desk<Inst = U::Inst, Outcome = U::Outcome>,
    R: Threads + Wait + Sync,
    G: Gate,
>(rt: &R, running: &mut Running<U, K::Place>, desk: &K, gate: &G) -> Progress
    requires seat { K.sits desk.now running.old.seat }
    requires goes_on { (running.old.failed ≡ false) × (running.old.doing ≡ HasEnded → ⊥) }
    ensures seat { K.sits desk.now running.new.seat × (K.Place.number running.new.seat ≡ K.Place.number running.old.seat) }
    ensures fixed { U.fixed running.new.unit ≡ U.fixed running.old.unit }
{
    match step::<U, K, G, R>(rt, running, desk, gate) {
        Ok(After::Goes) => goes_on(running),
        Ok(After::Waits) => Progress::Waits,
        Ok(After::IsStuck) => Progress::StopsAll,
        Err(_) => Progress::StopsAll,
    }
}

/// What a step told of a unit that waits for nothing: one that has written would rather be behind the others.
fn goes_on<U: Unit, S: Seat<Inst = U::Inst, Outcome = U::Outcome>>(
    running: &Running<U, S>,
) -> Progress {
    let going = if running.has_written() {
        Progress::Rests
    } else {
        Progress::Goes
    };
    match running.doing() {
        Doing::HasEnded => Progress::Ended,
        Doing::Gives => going,
        Doing::Advances => going,
        Doing::Takes => going,
    }
}
