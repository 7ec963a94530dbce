//! Tasks that meet, and tasks that wait for one another.

ghost use Rattle.std.specs.Prelude.{◌≡◌, ◌<◌, map, IfOk};
ghost use Rattle.sg_board.specs.Places.{counting};

use sg_board::{Progress, Task, run};
use std::alloc::{AllocError, Global};
use std::sync::atomic::{AtomicU64, Ordering};
use std::sync::{Mutex, Wait};
use std::test::Fail;
use std::thread;
use std::thread::Threads;
use std::time::{Clock, Duration};

/// One of four tasks, which makes three steps.
#[derive(Drop)]
struct Guest {
    number: u32,
    steps: u32,
    ghost within: { number < 4 },
}

impl Task for Guest {
    ghost total = { 4 };

    ghost number = { λ g. g.number };

    fn number(&self) -> u32 {
        self.number
    }

    fn woken(&self) -> &[u32] {
        &[]
    }
}

/// How many times a guest looks whether the others came.
const PATIENCE: u64 = 1_000_000_000;

/// Where the guests of each step are counted.
#[derive(Drop)]
struct Hall {
    first: AtomicU64,
    second: AtomicU64,
    third: AtomicU64,
    /// How many guests went on alone.
    alone: AtomicU64,
}

/// Waits until four guests came. Whether they did in time.
fn meets(count: &AtomicU64) -> bool {
    count.fetch_add(1, Ordering::SeqCst);
    for _turn in 0..PATIENCE {
        if count.load(Ordering::SeqCst) >= 4 {
            return true;
        }
    }
    false
}

/// One step of a guest, which waits for the same step of all others.
fn visit(hall: &Hall, guest: Guest) -> (Guest, Progress)
    ensures { result.0.number ≡ guest.number }
{
    let Guest { number, steps } = guest;
    let count = match steps {
        0 => &hall.first,
        1 => &hall.second,
        _ => &hall.third,
    };
    if !meets(count) {
        hall.alone.fetch_add(1, Ordering::SeqCst);
    }
    let told = if steps >= 2 {
        Progress::Ended
    } else {
        Progress::Goes
    };
    let steps = steps.saturating_add(1);
    (Guest { number, steps }, told)
}

/// Four guests.
fn guests(alloc: Global) -> Result<Vec<Guest>, AllocError>
    ensures { IfOk result (λ v. map (λ g. g.number) v.items ≡ counting 0 4) }
{
    let mut list = Vec::new(alloc);
    list.push(Guest {
        number: 0,
        steps: 0,
    })?;
    list.push(Guest {
        number: 1,
        steps: 0,
    })?;
    list.push(Guest {
        number: 2,
        steps: 0,
    })?;
    list.push(Guest {
        number: 3,
        steps: 0,
    })?;
    Ok(list)
}

/// How many guests went on alone, and how many made all their steps, where four workers serve four guests.
fn meeting<R: Threads + Wait + Sync>(rt: &R, alloc: Global) -> Result<(u64, u64), AllocError> {
    let hall = Hall {
        first: AtomicU64::new(0),
        second: AtomicU64::new(0),
        third: AtomicU64::new(0),
        alone: AtomicU64::new(0),
    };
    let list = guests(alloc)?;
    let step = |guest: Guest| -> (Guest, Progress)
        ensures { result.0.number ≡ guest.number }
    { visit(&hall, guest) };
    let done = run(rt, alloc, list, 4, &step)?;
    let mut ended: u64 = 0;
    for guest in &done {
        if guest.steps == 3 {
            ended = ended.saturating_add(1);
        }
    }
    Ok((hall.alone.load(Ordering::SeqCst), ended))
}

#[test]
fn workers_run_at_once(rt: HostRuntime) -> Result<(), Fail> {
    assert_eq!(rt; meeting(&rt, rt.alloc())?, (0, 4));
    Ok(())
}

/// Where the guests of each half of the list are counted.
#[derive(Drop)]
struct Halves {
    low: AtomicU64,
    high: AtomicU64,
    /// How many guests went on alone.
    alone: AtomicU64,
}

/// Waits until somebody came. Whether that was in time.
fn sees(count: &AtomicU64) -> bool {
    for _turn in 0..PATIENCE {
        if count.load(Ordering::SeqCst) > 0 {
            return true;
        }
    }
    false
}

/// Comes to one half, and waits for a guest of the other.
fn enter(mine: &AtomicU64, others: &AtomicU64, alone: &AtomicU64) {
    mine.fetch_add(1, Ordering::SeqCst);
    if !sees(others) {
        alone.fetch_add(1, Ordering::SeqCst);
    }
}

/// The only step of a guest, which waits for one of the other half.
fn face(halves: &Halves, guest: Guest) -> (Guest, Progress)
    ensures { result.0.number ≡ guest.number }
{
    if guest.number < 2 {
        enter(&halves.low, &halves.high, &halves.alone);
    } else {
        enter(&halves.high, &halves.low, &halves.alone);
    }
    (guest, Progress::Ended)
}

#[test]
fn each_worker_starts_with_its_own_tasks(rt: HostRuntime) -> Result<(), Fail> {
    let halves = Halves {
        low: AtomicU64::new(0),
        high: AtomicU64::new(0),
        alone: AtomicU64::new(0),
    };
    let list = guests(rt.alloc())?;
    let step = |guest: Guest| -> (Guest, Progress)
        ensures { result.0.number ≡ guest.number }
    { face(&halves, guest) };
    let done = run(&rt, rt.alloc(), list, 2, &step)?;
    assert_eq!(rt; done.len(), 4);
    assert_eq!(rt; halves.alone.load(Ordering::SeqCst), 0);
    Ok(())
}

/// One of two tasks, of which one goes on for ever.
#[derive(Drop)]
struct Runner {
    number: u32,
    ghost within: { number < 2 },
}

impl Task for Runner {
    ghost total = { 2 };

    ghost number = { λ r. r.number };

    fn number(&self) -> u32 {
        self.number
    }

    fn woken(&self) -> &[u32] {
        &[]
    }
}

/// A step of a runner: the second goes on, and the first stops both once the second runs.
fn go_on(runs: &AtomicU64, number: u32) -> Progress {
    if number > 0 {
        runs.store(1, Ordering::SeqCst);
        return Progress::Goes;
    }
    for _turn in 0..PATIENCE {
        if runs.load(Ordering::SeqCst) > 0 {
            return Progress::StopsAll;
        }
    }
    Progress::StopsAll
}

/// Two runners.
fn runners(alloc: Global) -> Result<Vec<Runner>, AllocError>
    ensures { IfOk result (λ v. map (λ r. r.number) v.items ≡ counting 0 2) }
{
    let mut list = Vec::new(alloc);
    list.push(Runner { number: 0 })?;
    list.push(Runner { number: 1 })?;
    Ok(list)
}

#[test]
fn a_stop_ends_a_task_that_goes_on(rt: HostRuntime) -> Result<(), Fail> {
    let runs = AtomicU64::new(0);
    let list = runners(rt.alloc())?;
    let step = |runner: Runner| -> (Runner, Progress)
        ensures { result.0.number ≡ runner.number }
    {
        let told = go_on(&runs, runner.number);
        (runner, told)
    };
    let done = run(&rt, rt.alloc(), list, 2, &step)?;
    assert_eq!(rt; done.len(), 2);
    assert_eq!(rt; runs.load(Ordering::SeqCst), 1);
    Ok(())
}

/// Whom a task waits for: the one before it and the first for the last, the one before it, or the first.
#[derive(Clone, Copy, Debug)]
enum Shape {
    Ring,
    Chain,
    Star,
}

/// One of 200 tasks.
#[derive(Drop)]
struct Link {
    number: u32,
    woken: Vec<u32>,
    ghost within: { number < 200 },
}

impl Task for Link {
    ghost total = { 200 };

    ghost number = { λ l. l.number };

    fn number(&self) -> u32 {
        self.number
    }

    fn woken(&self) -> &[u32] {
        self.woken.as_slice()
    }
}

/// How many steps each task has made, and which wait.
#[derive(Drop)]
struct Knot {
    shape: Shape,
    goal: u64,
    /// Whether a task that goes on rests.
    rests: bool,
    made: Vec<u64>,
    waits: Vec<bool>,
    /// How many steps were made of tasks that waited and were not woken.
    anew: u64,
}

impl Knot {
    fn made_by(&self, number: u32) -> u64 {
        match self.made.get(number as usize) {
            Some(made) => *made,
            None => 0,
        }
    }

    /// Whether the task can make its next step.
    fn may(&self, number: u32) -> bool {
        let made = self.made_by(number);
        match self.shape {
            Shape::Ring => {
                if number == 0 {
                    made <= self.made_by(199)
                } else {
                    made < self.made_by(number.saturating_sub(1))
                }
            }
            Shape::Chain => number == 0 || made < self.made_by(number.saturating_sub(1)),
            Shape::Star => number == 0 || made < self.made_by(0),
        }
    }

    fn set_waits(&mut self, number: u32, waits: bool) {
        if let Some(place) = self.waits.get_mut(number as usize) {
            *place = waits;
        }
    }

    fn is_waiting(&self, number: u32) -> bool {
        match self.waits.get(number as usize) {
            Some(waits) => *waits,
            None => false,
        }
    }

    /// The tasks that wait, and can make their next step now.
    fn wake_all(&mut self, alloc: Global) -> Result<Vec<u32>, AllocError> {
        let mut woken = Vec::new(alloc);
        for number in 0..200 {
            if self.is_waiting(number) && self.may(number) {
                self.set_waits(number, false);
                woken.push(number)?;
            }
        }
        Ok(woken)
    }

    /// What the last of so many steps of a task told.
    fn told_after(&self, made: u64) -> Progress {
        if made >= self.goal {
            Progress::Ended
        } else if self.rests {
            Progress::Rests
        } else {
            Progress::Goes
        }
    }

    /// One step of a task, and the tasks that it wakes.
    fn step(&mut self, alloc: Global, number: u32) -> Result<(Progress, Vec<u32>), AllocError> {
        if self.is_waiting(number) {
            self.anew = self.anew.saturating_add(1);
            self.set_waits(number, false);
        }
        if !self.may(number) {
            self.set_waits(number, true);
            return Ok((Progress::Waits, Vec::new(alloc)));
        }
        let made = self.made_by(number).saturating_add(1);
        if let Some(place) = self.made.get_mut(number as usize) {
            *place = made;
        }
        let woken = self.wake_all(alloc)?;
        Ok((self.told_after(made), woken))
    }
}

/// One step of a task.
fn pull<R: Wait>(rt: &R, alloc: Global, knot: &Mutex<Knot>, link: Link) -> (Link, Progress)
    ensures { result.0.number ≡ link.number }
{
    let Link { number, woken: _ } = link;
    let stepped = knot.lock(rt).step(alloc, number);
    match stepped {
        Ok((told, woken)) => (Link { number, woken }, told),
        Err(_) => (
            Link {
                number,
                woken: Vec::new(alloc),
            },
            Progress::StopsAll,
        ),
    }
}

/// All tasks.
fn links(alloc: Global) -> Result<Vec<Link>, AllocError>
    ensures { IfOk result (λ v. map (λ l. l.number) v.items ≡ counting 0 200) }
{
    let mut list = Vec::new(alloc);
    for number in 0..200 {
        list.push(Link {
            number,
            woken: Vec::new(alloc),
        })?;
    }
    Ok(list)
}

/// How many tasks made all their steps, and how many steps were made of tasks that were not woken.
fn pulled<R: Threads + Wait + Sync>(
    rt: &R,
    alloc: Global,
    shape: Shape,
    rests: bool,
    workers: u32,
) -> Result<(u64, u64), AllocError> {
    let knot = Mutex::new(Knot {
        shape,
        goal: 5,
        rests,
        made: Vec::from_elem(alloc, 0u64, 200)?,
        waits: Vec::from_elem(alloc, false, 200)?,
        anew: 0,
    });
    let list = links(alloc)?;
    let step = |link: Link| -> (Link, Progress)
        ensures { result.0.number ≡ link.number }
    { pull(rt, alloc, &knot, link) };
    let done = run(rt, alloc, list, workers, &step)?;
    let left = knot.lock(rt);
    let mut ended: u64 = 0;
    for link in &done {
        if left.made_by(link.number) == 5 {
            ended = ended.saturating_add(1);
        }
    }
    Ok((ended, left.anew))
}

#[test]
fn woken_tasks_go_on(rt: HostRuntime) -> Result<(), Fail> {
    for workers in [1, 2, 8, 64] {
        for shape in [Shape::Ring, Shape::Chain, Shape::Star] {
            for rests in [false, true] {
                assert_eq!(rt; pulled(&rt, rt.alloc(), shape, rests, workers)?, (200, 0));
            }
        }
    }
    Ok(())
}

/// A step of a task that is written into a list: of the task 0 they rest, rest and end, of 1 wait and end, of 2 rest and end, and of 3
/// wake 1 and end. What the step of this place told.
fn listed_step(number: u32, step: u32) -> Progress {
    match (number, step) {
        (0, 0 | 1) => Progress::Rests,
        (1, 0) => Progress::Waits,
        (2, 0) => Progress::Rests,
        (3, 0) => Progress::Goes,
        _ => Progress::Ended,
    }
}

/// One of four tasks whose steps are listed.
#[derive(Drop)]
struct Listed {
    number: u32,
    steps: u32,
    ghost within: { number < 4 },
}

impl Task for Listed {
    ghost total = { 4 };

    ghost number = { λ l. l.number };

    fn number(&self) -> u32 {
        self.number
    }

    fn woken(&self) -> &[u32] {
        if self.number == 3 && self.steps == 1 {
            &[1]
        } else {
            &[]
        }
    }
}

/// One step of a listed task, whose number is written behind those of the steps before, each as a digit from 1.
fn write_down(order: &AtomicU64, listed: Listed) -> (Listed, Progress)
    ensures { result.0.number ≡ listed.number }
{
    let Listed { number, steps } = listed;
    let before = order.load(Ordering::SeqCst);
    let digit = u64::from(number).wrapping_add(1);
    order.store(
        before.wrapping_mul(10).wrapping_add(digit),
        Ordering::SeqCst,
    );
    let told = listed_step(number, steps);
    let steps = steps.saturating_add(1);
    (Listed { number, steps }, told)
}

/// Four listed tasks.
fn all_listed(alloc: Global) -> Result<Vec<Listed>, AllocError>
    ensures { IfOk result (λ v. map (λ l. l.number) v.items ≡ counting 0 4) }
{
    let mut list = Vec::new(alloc);
    list.push(Listed {
        number: 0,
        steps: 0,
    })?;
    list.push(Listed {
        number: 1,
        steps: 0,
    })?;
    list.push(Listed {
        number: 2,
        steps: 0,
    })?;
    list.push(Listed {
        number: 3,
        steps: 0,
    })?;
    Ok(list)
}

#[test]
fn tasks_that_rest_come_behind_all_that_are_ready(rt: HostRuntime) -> Result<(), Fail> {
    let order = AtomicU64::new(0);
    let list = all_listed(rt.alloc())?;
    let step = |listed: Listed| -> (Listed, Progress)
        ensures { result.0.number ≡ listed.number }
    { write_down(&order, listed) };
    let done = run(&rt, rt.alloc(), list, 1, &step)?;
    assert_eq!(rt; done.len(), 4);
    // The first steps of 0, 1, 2 and 3, then 1, which was woken, and 3 behind it, then 0, 2 and 0 again.
    assert_eq!(rt; order.load(Ordering::SeqCst), 123_424_131);
    Ok(())
}

/// One of two tasks: the second waits, until the first wakes it and rests. Then both meet.
#[derive(Drop)]
struct Sleeper {
    number: u32,
    steps: u32,
    ghost within: { number < 2 },
}

impl Task for Sleeper {
    ghost total = { 2 };

    ghost number = { λ s. s.number };

    fn number(&self) -> u32 {
        self.number
    }

    fn woken(&self) -> &[u32] {
        if self.number == 0 && self.steps == 1 {
            &[1]
        } else {
            &[]
        }
    }
}

/// How far two tasks came.
#[derive(Drop)]
struct Bed {
    /// How many have lain down.
    waiting: AtomicU64,
    /// How many are at their last steps.
    last: AtomicU64,
    /// How many went on alone.
    alone: AtomicU64,
}

/// Waits until so many came. Whether they did in time.
fn has_come(count: &AtomicU64, many: u64) -> bool {
    for _turn in 0..PATIENCE {
        if count.load(Ordering::SeqCst) >= many {
            return true;
        }
    }
    false
}

/// The first step of one of two tasks: the first lets time pass, once the second waits, so that its worker sleeps.
fn lie_down<R: Wait + Clock>(rt: &R, bed: &Bed, number: u32) -> Progress {
    if number > 0 {
        bed.waiting.fetch_add(1, Ordering::SeqCst);
        return Progress::Waits;
    }
    if !has_come(&bed.waiting, 1) {
        bed.alone.fetch_add(1, Ordering::SeqCst);
    }
    thread::sleep(rt, Duration::from_millis(30));
    Progress::Rests
}

/// The last step of one of two tasks, which waits for that of the other.
fn get_up(bed: &Bed) -> Progress {
    bed.last.fetch_add(1, Ordering::SeqCst);
    if !has_come(&bed.last, 2) {
        bed.alone.fetch_add(1, Ordering::SeqCst);
    }
    Progress::Ended
}

/// One step of one of two tasks.
fn sleep_on<R: Wait + Clock>(rt: &R, bed: &Bed, sleeper: Sleeper) -> (Sleeper, Progress)
    ensures { result.0.number ≡ sleeper.number }
{
    let Sleeper { number, steps } = sleeper;
    let told = if steps == 0 {
        lie_down(rt, bed, number)
    } else {
        get_up(bed)
    };
    let steps = steps.saturating_add(1);
    (Sleeper { number, steps }, told)
}

/// Two tasks of which one waits.
fn sleepers(alloc: Global) -> Result<Vec<Sleeper>, AllocError>
    ensures { IfOk result (λ v. map (λ s. s.number) v.items ≡ counting 0 2) }
{
    let mut list = Vec::new(alloc);
    list.push(Sleeper {
        number: 0,
        steps: 0,
    })?;
    list.push(Sleeper {
        number: 1,
        steps: 0,
    })?;
    Ok(list)
}

/// How many tasks went on alone, and how many came back.
fn slept<R: Threads + Wait + Clock + Sync>(
    rt: &R,
    alloc: Global,
) -> Result<(u64, usize), AllocError> {
    let bed = Bed {
        waiting: AtomicU64::new(0),
        last: AtomicU64::new(0),
        alone: AtomicU64::new(0),
    };
    let list = sleepers(alloc)?;
    let step = |sleeper: Sleeper| -> (Sleeper, Progress)
        ensures { result.0.number ≡ sleeper.number }
    { sleep_on(rt, &bed, sleeper) };
    let done = run(rt, alloc, list, 2, &step)?;
    Ok((bed.alone.load(Ordering::SeqCst), done.len()))
}

#[test]
fn a_worker_that_sleeps_takes_what_rests(rt: HostRuntime) -> Result<(), Fail> {
    assert_eq!(rt; slept(&rt, rt.alloc())?, (0, 2));
    Ok(())
}
