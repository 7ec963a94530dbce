ghost use Rattle.std.specs.Prelude.{◌≡◌, ◌+◌, ◌<◌, ◌++◌, [], ◌∷◌, IfOk, OnOk, OnErr, All, length, false, true};
ghost use Rattle.sg_turn.specs.Turn.{IsOf, fresh_seats};

use crate::tally::{Note, Tally, tell_list};
use sg_turn::{Turn, TurnSeat};
use std::alloc::{AllocError, Global};
use std::sync::Wait;
use std::test::Fail;
use std::thread;
use std::thread::Threads;
use std::time::{Clock, Duration};

#[derive(Drop)]
struct Job {
    seat: TurnSeat<Tally>,
    number: u32,
}

fn empty(alloc: Global) -> Tally
    ensures { (result.notes.items ≡ []) × (result.name ≡ 7) }
{
    Tally {
        notes: Vec::new(alloc),
        name: 7,
    }
}

/// Adds one note, and keeps the value for so long.
fn tell<R: Wait + Clock>(
    rt: &R,
    turn: &Turn<Tally>,
    seat: &mut TurnSeat<Tally>,
    note: Note,
    nap: Duration,
) -> Result<(), AllocError>
    requires own { IsOf turn.now seat.old × (seat.old.number ≡ note.0) }
    requires outside { (seat.old.inside ≡ false) × (seat.old.spent ≡ false) }
    ensures ok { OnOk result ((seat.new.spent ≡ false) × (seat.new.mine ≡ seat.old.mine ++ note ∷ [])) }
    ensures err { OnErr result ((seat.new.spent ≡ true) × (seat.new.mine ≡ seat.old.mine)) }
    ensures seat { IsOf turn.now seat.new × (seat.new.number ≡ seat.old.number) × (seat.new.inside ≡ false) × (seat.new.kept ≡ seat.old.kept) }
{
    let mut tally = turn.lock(rt, seat);
    if !nap.is_zero() {
        thread::sleep(rt, nap);
    }
    let told = tally.notes.push(note);
    turn.unlock(seat, tally);
    told?;
    Ok(())
}

/// Gives the value back as it was.
fn pass<R: Wait>(rt: &R, turn: &Turn<Tally>, seat: &mut TurnSeat<Tally>)
    requires own { IsOf turn.now seat.old }
    requires outside { (seat.old.inside ≡ false) × (seat.old.spent ≡ false) }
    ensures spent { (seat.new.spent ≡ true) × (seat.new.inside ≡ false) }
    ensures seat { IsOf turn.now seat.new × (seat.new.number ≡ seat.old.number) × (seat.new.mine ≡ seat.old.mine) × (seat.new.kept ≡ seat.old.kept) }
{
    let tally = turn.lock(rt, seat);
    turn.unlock(seat, tally);
}

/// Adds so many notes, counted from 0, and then gives the value back as it was.
fn tell_all<R: Wait + Clock>(
    rt: &R,
    turn: &Turn<Tally>,
    job: Job,
    notes: u32,
    nap: Duration,
) -> Result<TurnSeat<Tally>, AllocError>
    requires own { IsOf turn.now job.seat × (job.seat.number ≡ job.number) }
    requires outside { (job.seat.inside ≡ false) × (job.seat.spent ≡ false) × (job.seat.kept ≡ []) }
    ensures { IfOk result (λ s. IsOf turn.now s × (s.inside ≡ false) × (s.kept ≡ []) × (s.number ≡ job.seat.number)) }
{
    let Job { mut seat, number } = job;
    for count in 0..notes {
        tell(rt, turn, &mut seat, (number, count), nap)?;
    }
    pass(rt, turn, &mut seat);
    Ok(seat)
}

/// Two threads add notes, and the lock is closed with both seats.
fn two<R: Threads + Wait + Clock + Sync>(
    rt: &R,
    alloc: Global,
    notes: u32,
    nap: Duration,
) -> Result<Vec<Note>, AllocError> {
    let made = Turn::new(alloc, empty(alloc), 2)?;
    let (turn, mut seats) = made;
    let one = seats.pop().unwrap();
    let zero = seats.pop().unwrap();
    let (zero, one) = thread::join(
        rt,
        || {
            tell_all(
                rt,
                &turn,
                Job {
                    seat: zero,
                    number: 0,
                },
                notes,
                nap,
            )
        },
        || {
            tell_all(
                rt,
                &turn,
                Job {
                    seat: one,
                    number: 1,
                },
                notes,
                nap,
            )
        },
    );
    let zero = zero?;
    let one = one?;
    seats.push(zero)?;
    seats.push(one)?;
    Ok(turn.close(seats).notes)
}

/// As many threads as seats do the same, and the lock is closed with one seat that took the others back.
fn many<R: Threads + Wait + Clock + Sync>(
    rt: &R,
    alloc: Global,
    seats: u32,
    notes: u32,
) -> Result<Vec<Note>, AllocError>
    requires { 0 < seats }
{
    let made = Turn::new(alloc, empty(alloc), seats)?;
    let (turn, all) = made;
    let jobs = jobs_of(alloc, &turn, all, seats)?;
    let done = thread::map_vec(
        rt,
        jobs,
        &|job: Job| -> Result<TurnSeat<Tally>, AllocError>
            requires { IsOf turn job.seat × (job.seat.number ≡ job.number)
                × (job.seat.inside ≡ false) × (job.seat.spent ≡ false) × (job.seat.kept ≡ []) }
            ensures { IfOk result (λ s. IsOf turn s × (s.inside ≡ false) × (s.kept ≡ [])) }
        { tell_all(rt, &turn, job, notes, Duration::ZERO) },
    )?;
    let gatherer = gather_back(&turn, done)?;
    Ok(turn.close_with(gatherer).notes)
}

fn jobs_of(
    alloc: Global,
    turn: &Turn<Tally>,
    seats: Vec<TurnSeat<Tally>>,
    count: u32,
) -> Result<Vec<Job>, AllocError>
    requires { seats.items ≡ fresh_seats turn.now.turn turn.now.root count }
    ensures length { IfOk result (λ v. length v.items ≡ count) }
    ensures jobs { IfOk result (λ v. All
        (λ j. IsOf turn.now j.seat × (j.seat.number ≡ j.number)
        × (j.seat.inside ≡ false) × (j.seat.spent ≡ false) × (j.seat.kept ≡ []))
        v.items) }
{
    let mut jobs = Vec::new(alloc);
    let mut number = count;
    let mut left = seats;
    while let Some(seat) = left.pop() {
        number -= 1;
        jobs.push(Job { seat, number })?;
    }
    Ok(jobs)
}

fn gather_back(
    turn: &Turn<Tally>,
    done: Vec<Result<TurnSeat<Tally>, AllocError>>,
) -> Result<TurnSeat<Tally>, AllocError>
    requires some { 0 < length done.items }
    requires done { All (λ r. IfOk r (λ s. IsOf turn.now s × (s.inside ≡ false) × (s.kept ≡ []))) done.items }
    ensures { IfOk result (λ s. IsOf turn.now s × (s.inside ≡ false) × (length s.kept + 1 ≡ length done.items)) }
{
    let mut left = done;
    let Some(last) = left.pop() else {
        unreachable!()
    };
    let mut gatherer = last?;
    while let Some(other) = left.pop() {
        let other = other?;
        turn.gather(&mut gatherer, other);
    }
    Ok(gatherer)
}

/// Whether the notes of each of so many seats count from 0, and none is missing or too many.
fn are_counted(all: &[Note], seats: u32, notes: u32) -> bool {
    for seat in 0..seats {
        let mut next = 0;
        for note in all {
            if note.0 == seat {
                if note.1 != next {
                    return false;
                }
                next = next.wrapping_add(1);
            }
        }
        if next != notes {
            return false;
        }
    }
    all.len() as u64 == u64::from(seats) * u64::from(notes)
}

#[test]
fn two_threads_take_turns(rt: HostRuntime) -> Result<(), Fail> {
    // In the second run each waits for so long that it parks, and has to be woken.
    for (notes, millis) in [(2000, 0), (10, 3)] {
        let all = two(&rt, rt.alloc(), notes, Duration::from_millis(millis))?;
        assert!(rt; are_counted(&all, 2, notes), "at {notes} notes");
    }
    Ok(())
}

#[test]
fn eight_threads_take_turns(rt: HostRuntime) -> Result<(), Fail> {
    let all = many(&rt, rt.alloc(), 8, 500)?;
    assert!(rt; are_counted(&all, 8, 500));
    Ok(())
}

/// How many notes stand in the five lists of a round.
const NOTES_OF_ROUND: u32 = 15;

/// Whether a list of a round begins with the note of this number within the round: they have one to five notes.
fn begins_list(number: u32) -> bool {
    matches!(number, 0 | 1 | 3 | 6 | 10)
}

/// So many notes of a seat, counted from `first`.
fn list_of(alloc: Global, number: u32, first: u32, count: u32) -> Result<Vec<Note>, AllocError>
    ensures { IfOk result (λ v. (length v.items ≡ count) × All (λ e. e.0 ≡ number) v.items) }
{
    let mut notes = Vec::new(alloc);
    for index in 0..count {
        notes.push((number, first.wrapping_add(index)))?;
    }
    Ok(notes)
}

/// Adds lists of one to five notes in turn, so many rounds of them.
fn tell_lists<R: Wait>(
    rt: &R,
    alloc: Global,
    turn: &Turn<Tally>,
    job: Job,
    rounds: u32,
) -> Result<TurnSeat<Tally>, AllocError>
    requires own { IsOf turn.now job.seat × (job.seat.number ≡ job.number) }
    requires outside { (job.seat.inside ≡ false) × (job.seat.spent ≡ false) × (job.seat.kept ≡ []) }
    ensures { IfOk result (λ s. IsOf turn.now s × (s.inside ≡ false) × (s.kept ≡ []) × (s.number ≡ job.seat.number)) }
{
    let Job { mut seat, number } = job;
    let mut first: u32 = 0;
    for _round in 0..rounds {
        for more in 0..5 {
            let count = more + 1;
            let notes = list_of(alloc, number, first, count)?;
            tell_list(rt, turn, &mut seat, notes.as_slice())?;
            first = first.wrapping_add(count);
        }
    }
    Ok(seat)
}

/// Two threads add lists of notes, and the lock is closed with both seats.
fn two_with_lists<R: Threads + Wait + Sync>(
    rt: &R,
    alloc: Global,
    rounds: u32,
) -> Result<Vec<Note>, AllocError> {
    let made = Turn::new(alloc, empty(alloc), 2)?;
    let (turn, mut seats) = made;
    let one = seats.pop().unwrap();
    let zero = seats.pop().unwrap();
    let (zero, one) = thread::join(
        rt,
        || {
            tell_lists(
                rt,
                alloc,
                &turn,
                Job {
                    seat: zero,
                    number: 0,
                },
                rounds,
            )
        },
        || {
            tell_lists(
                rt,
                alloc,
                &turn,
                Job {
                    seat: one,
                    number: 1,
                },
                rounds,
            )
        },
    );
    let zero = zero?;
    let one = one?;
    seats.push(zero)?;
    seats.push(one)?;
    Ok(turn.close(seats).notes)
}

/// Whether the notes of each list stand behind one another.
fn are_listed(all: &[Note]) -> bool {
    let mut last: Note = (0, 0);
    for note in all {
        let follows = note.0 == last.0 && note.1 == last.1.wrapping_add(1);
        if !begins_list(note.1 % NOTES_OF_ROUND) && !follows {
            return false;
        }
        last = *note;
    }
    true
}

#[test]
fn two_threads_add_lists_in_turns(rt: HostRuntime) -> Result<(), Fail> {
    let all = two_with_lists(&rt, rt.alloc(), 400)?;
    assert!(rt; are_counted(&all, 2, 400 * NOTES_OF_ROUND));
    assert!(rt; are_listed(&all));
    Ok(())
}
