//! Four small units, run by several workers.

ghost use Rattle.std.specs.Prelude.{◌≡◌, ◌<◌, ◌≤◌, ◌-◌, ◌^◌, ◌==◌, ◌++◌, ◌∷◌, [], All, true, false, length, IfOk, IfSome, OnErr};
ghost use Rattle.sg_pool.specs.Example.{four, made_reply, made_after, GivesAny, HasMade};
ghost use Rattle.sg_pool.specs.Pool.{AreNumbered};
ghost use Rattle.sg_unit.specs.Example.{MakerStands};
ghost use Rattle.sg_unit.specs.Own.{CanReply};
ghost use Rattle.sg_unit.specs.Run.{run_of};
ghost use Rattle.sg_unit.specs.Unit.{setting_of, GoesOn};

use sg_base::{LabelSet, Scope};
use sg_numbers::Numbers;
use sg_pool::{Running, run_pool};
use sg_unit::{Desk, Entry, Gate, NoGate, Op, Reply, Seat, Unit, Woken};
use std::alloc::{AllocError, Global};
use std::sync::Wait;
use std::sync::atomic::{AtomicU64, Ordering};
use std::test::Fail;
use std::thread::Threads;

/// How many times somebody looks whether the others came.
const PATIENCE: u64 = 1_000_000_000;

/// Where each of three steps waits for the same step of others.
#[derive(Drop)]
struct Steps {
    /// How many have to come to a step.
    wanted: u64,
    first: AtomicU64,
    second: AtomicU64,
    third: AtomicU64,
    /// How many steps went on though not all had come.
    alone: AtomicU64,
}

/// Comes to a step, and waits until so many came. Whether they did in time.
fn meets(count: &AtomicU64, wanted: u64) -> bool {
    count.fetch_add(1, Ordering::SeqCst);
    for _turn in 0..PATIENCE {
        if count.load(Ordering::SeqCst) >= wanted {
            return true;
        }
    }
    false
}

impl Steps {
    fn of(wanted: u64) -> Steps {
        Steps {
            wanted,
            first: AtomicU64::new(0),
            second: AtomicU64::new(0),
            third: AtomicU64::new(0),
            alone: AtomicU64::new(0),
        }
    }

    /// Comes to the step with a number from 1 to 3, and waits for the others, unless some step went on alone before.
    fn meet(&self, step: u64) {
        if self.alone.load(Ordering::SeqCst) > 0 {
            return;
        }
        let count = match step {
            1 => &self.first,
            2 => &self.second,
            _ => &self.third,
        };
        if !meets(count, self.wanted) {
            self.alone.fetch_add(1, Ordering::SeqCst);
        }
    }
}

/// One of four units: it makes two scopes, and ends with 7. One that rests has written once it gave its second scope. Each call of
/// its `next` waits for the same call of others.
#[derive(Drop)]
struct Maker<'a> {
    number: u32,
    given: u8,
    rests: bool,
    calls: &'a Steps,
    ghost within: { number < 4 },
}

impl<'a> Unit for Maker<'a> {
    ghost use Rattle.std.specs.Prelude.{[], ◌-◌};
    ghost use Rattle.sg_pool.specs.Example.{four};
    ghost use Rattle.sg_unit.specs.Example.{MakerStands};

    type Inst = Numbers;

    type Outcome = u64;

    ghost Fixed = { Unit {0} };

    ghost fixed = { λ _. tt };

    ghost number = { λ m. m.number };

    ghost opening = { λ _. four };

    ghost kinds = { λ _. [] };

    ghost owes_edge = { λ _ _ _ _ _. Unit {0} };

    ghost owes_datum = { λ _ _ _ _. Unit {0} };

    ghost may_ask = { λ _ _ _. Unit {0} };

    ghost comes_to = { λ _ _ _. Unit {0} };

    ghost stands = { λ m. MakerStands 7 m.given };

    ghost measure = { λ m. 3 - m.given };

    fn id(&self) -> u32 {
        self.number
    }

    fn has_written(&self) -> bool {
        self.rests && self.given == 2
    }

    fn next(&mut self, last: Option<Reply<Numbers>>) -> Result<Op<Numbers, u64>, AllocError>
        ensures gives { IfOk result (GoesOn (setting_of (λ p d. p == d) (λ a b. a == b) four []) self.old.number (MakerStands 7 self.old.given) (MakerStands 7 self.new.given) last) }
        ensures owed { IfOk result (GivesAny (setting_of (λ p d. p == d) (λ a b. a == b) four []) self.old.number (MakerStands 7 self.old.given) last) }
        ensures falls { IfOk result (λ _. 3 - self.new.given < 3 - self.old.given) }
        ensures same { OnErr result (self.new ≡ self.old) }
        ensures number { self.new.number ≡ self.old.number }
    {
        let _handed = last;
        self.calls.meet(u64::from(self.given) + 1);
        match self.given {
            0 => {
                self.given = 1;
                Ok(Op::Fresh {
                    labels: LabelSet::none(),
                    datum: false,
                })
            }
            1 => {
                self.given = 2;
                Ok(Op::Fresh {
                    labels: LabelSet::none(),
                    datum: false,
                })
            }
            2 => {
                self.given = 3;
                Ok(Op::End(7))
            }
            _ => Err(AllocError),
        }
    }
}

/// The seat of one of the four, which keeps its entries.
#[derive(Drop)]
struct OwnSeat {
    alloc: Global,
    number: u32,
    made: u32,
    log: Vec<Entry<Numbers, u64>>,
    spent: bool,
    ghost within: { number < 4 },
}

impl Seat for OwnSeat {
    ghost use Rattle.std.specs.Prelude.{[]};
    ghost use Rattle.sg_pool.specs.Example.{four};

    type Inst = Numbers;

    type Outcome = u64;

    ghost number = { λ s. s.number };

    ghost mine = { λ s. s.log.items };

    ghost spent = { λ s. s.spent };

    ghost opening = { λ _. four };

    ghost kinds = { λ _. [] };

    fn number(&self) -> u32 {
        self.number
    }
}

/// The reply to a unit that made so many scopes, where the desk has one.
fn reply_to(alloc: Global, number: u32, made: u32, op: &Op<Numbers, u64>) -> Option<Reply<Numbers>>
    ensures { result ≡ made_reply number made op.now }
{
    match op {
        Op::Fresh { .. } => Some(Reply::Made(Scope {
            unit: number,
            serial: made,
        })),
        Op::End(_) => Some(Reply::Done {
            woken: Woken::new(Vec::new(alloc)),
        }),
        Op::AddEdge { .. } => None,
        Op::SetDatum { .. } => None,
        Op::CloseRow { .. } => None,
        Op::Ask(_) => None,
        Op::Advance => None,
        Op::Take => None,
    }
}

/// How many scopes the unit made then, where they can be counted.
fn count_after(made: u32, op: &Op<Numbers, u64>) -> Option<u32>
    ensures { IfSome result (λ n. n ≡ made_after made op.now) }
{
    match op {
        Op::Fresh { .. } => made.checked_add(1),
        Op::AddEdge { .. } => Some(made),
        Op::SetDatum { .. } => Some(made),
        Op::CloseRow { .. } => Some(made),
        Op::Ask(_) => Some(made),
        Op::Advance => Some(made),
        Op::Take => Some(made),
        Op::End(_) => Some(made),
    }
}

/// A desk that makes scopes and ends units, and answers want of memory once it was called so many times, and to all else.
#[derive(Drop)]
struct OwnDesk {
    calls: AtomicU64,
    short_at: u64,
}

impl OwnDesk {
    fn new(short_at: u64) -> OwnDesk {
        OwnDesk {
            calls: AtomicU64::new(0),
            short_at,
        }
    }
}

impl Desk for OwnDesk {
    ghost use Rattle.std.specs.Prelude.{◌==◌};
    ghost use Rattle.sg_pool.specs.Example.{HasMade};

    type Inst = Numbers;

    type Outcome = u64;

    type Place = OwnSeat;

    ghost sits = { λ _ s. HasMade (λ p d. p == d) (λ a b. a == b) s.number s.made s.log.items };

    fn apply<Rt: Threads + Wait + Sync>(
        &self,
        _rt: &Rt,
        seat: &mut OwnSeat,
        op: Op<Numbers, u64>,
    ) -> Result<Reply<Numbers>, AllocError>
        requires own { HasMade (λ p d. p == d) (λ a b. a == b) seat.old.number seat.old.made seat.old.log.items × (seat.old.spent ≡ false) }
        ensures added { IfOk result (λ reply. seat.new.log.items ≡ seat.old.log.items ++ (record { unit = seat.old.number; op = op; reply = reply }) ∷ []) }
        ensures reply { IfOk result (CanReply (run_of (setting_of (λ p d. p == d) (λ a b. a == b) four []) seat.old.log.items) seat.old.number op) }
        ensures short { IfOk result (λ _. length seat.new.log.items < 2 ^ 63) }
        ensures unspent { IfOk result (λ _. seat.new.spent ≡ false) }
        ensures err { OnErr result ((seat.new.log.items ≡ seat.old.log.items) × (seat.new.spent ≡ true)) }
        ensures seat { HasMade (λ p d. p == d) (λ a b. a == b) seat.new.number seat.new.made seat.new.log.items × (seat.new.number ≡ seat.old.number) }
    {
        seat.spent = true;
        if self.calls.fetch_add(1, Ordering::SeqCst) == self.short_at {
            return Err(AllocError);
        }
        let Some(kept) = reply_to(seat.alloc, seat.number, seat.made, &op) else {
            return Err(AllocError);
        };
        let Some(told) = reply_to(seat.alloc, seat.number, seat.made, &op) else {
            unreachable!()
        };
        let Some(made) = count_after(seat.made, &op) else {
            return Err(AllocError);
        };
        seat.log.push(Entry {
            unit: seat.number,
            op,
            reply: kept,
        })?;
        seat.made = made;
        seat.spent = false;
        Ok(told)
    }
}

/// A new unit at its seat.
fn unit_of(alloc: Global, number: u32, rests: bool, calls: &Steps) -> Running<Maker<'_>, OwnSeat>
    requires within { number < 4 }
    ensures seat { (result.seat.number ≡ number) × (result.failed ≡ false) }
    ensures own { HasMade (λ p d. p == d) (λ a b. a == b) result.seat.number result.seat.made result.seat.log.items }
{
    Running::new(
        Maker {
            number,
            given: 0,
            rests,
            calls,
        },
        OwnSeat {
            alloc,
            number,
            made: 0,
            log: Vec::new(alloc),
            spent: false,
        },
    )
}

/// Four new units.
fn units(
    alloc: Global,
    rests: bool,
    calls: &Steps,
) -> Result<Vec<Running<Maker<'_>, OwnSeat>>, AllocError>
    ensures numbered { IfOk result (λ v. AreNumbered (λ s. s.number) v.items) }
    ensures seats { IfOk result (λ v. All (λ r. HasMade (λ p d. p == d) (λ a b. a == b) r.seat.number r.seat.made r.seat.log.items × (r.failed ≡ false)) v.items) }
{
    let mut list = Vec::new(alloc);
    list.push(unit_of(alloc, 0, rests, calls))?;
    list.push(unit_of(alloc, 1, rests, calls))?;
    list.push(unit_of(alloc, 2, rests, calls))?;
    list.push(unit_of(alloc, 3, rests, calls))?;
    Ok(list)
}

/// The seats of four units that were run at the desk, whose calls of `next` meet there.
fn pooled<G: Gate, R: Threads + Wait + Sync>(
    rt: &R,
    alloc: Global,
    desk: &OwnDesk,
    rests: bool,
    calls: &Steps,
    workers: u32,
    gate: &G,
) -> Result<Vec<OwnSeat>, AllocError>
    requires { 1 ≤ workers }
{
    let team = units(alloc, rests, calls)?;
    run_pool::<Maker, OwnDesk, G, R>(rt, alloc, desk, team, workers, gate)
}

/// Whether the entry is of this unit, and made its scope with this serial.
fn makes(entry: &Entry<Numbers, u64>, unit: u32, serial: u32) -> bool {
    let Entry {
        unit: of,
        op,
        reply,
    } = entry;
    *of == unit
        && matches!(op, Op::Fresh { .. })
        && matches!(reply, Reply::Made(scope) if scope.unit == unit && scope.serial == serial)
}

/// Whether the entry is of this unit, and ended it with 7.
fn ends(entry: &Entry<Numbers, u64>, unit: u32) -> bool {
    entry.unit == unit
        && matches!(&entry.op, Op::End(7))
        && matches!(&entry.reply, Reply::Done { woken } if woken.as_slice().is_empty())
}

/// Whether the seat has this number and all entries of its unit.
fn is_whole(seat: &OwnSeat, number: u32) -> bool {
    seat.number == number
        && match seat.log.as_slice() {
            [first, second, third] => {
                makes(first, number, 0) && makes(second, number, 1) && ends(third, number)
            }
            _ => false,
        }
}

/// How many seats there are, where each has the number of its place and all entries of its unit.
fn whole(seats: &[OwnSeat]) -> Option<u32> {
    let mut number: u32 = 0;
    for seat in seats {
        if !is_whole(seat, number) {
            return None;
        }
        number = number.saturating_add(1);
    }
    Some(number)
}

/// A gate at which each step waits for the same step of all four units.
#[derive(Drop)]
struct Hall {
    steps: Steps,
    /// How many steps were answered.
    answered: AtomicU64,
}

impl Gate for Hall {
    fn before(&self, _unit: u32, step: u64) {
        self.steps.meet(step);
    }

    fn answered(&self, _unit: u32, _step: u64) {
        self.answered.fetch_add(1, Ordering::SeqCst);
    }
}

#[test]
fn workers_run_at_once(rt: HostRuntime) -> Result<(), Fail> {
    let hall = Hall {
        steps: Steps::of(4),
        answered: AtomicU64::new(0),
    };
    let calls = Steps::of(4);
    let desk = OwnDesk::new(u64::MAX);
    let seats = pooled(&rt, rt.alloc(), &desk, false, &calls, 4, &hall)?;
    assert_eq!(rt; whole(seats.as_slice()), Some(4));
    assert_eq!(rt; hall.steps.alone.load(Ordering::SeqCst), 0);
    assert_eq!(rt; calls.alone.load(Ordering::SeqCst), 0);
    assert_eq!(rt; hall.answered.load(Ordering::SeqCst), 12);
    Ok(())
}

/// A gate at which the first step of each half of the units waits for one of the other half.
#[derive(Drop)]
struct Halves {
    low: AtomicU64,
    high: AtomicU64,
    /// How many units went on alone.
    alone: AtomicU64,
}

/// Waits until somebody came. Whether that was in time.
fn sees(count: &AtomicU64) -> bool {
    for _turn in 0..PATIENCE {
        if count.load(Ordering::SeqCst) > 0 {
            return true;
        }
    }
    false
}

/// Comes to one half, and waits for a unit of the other.
fn enter(mine: &AtomicU64, others: &AtomicU64, alone: &AtomicU64) {
    mine.fetch_add(1, Ordering::SeqCst);
    if !sees(others) {
        alone.fetch_add(1, Ordering::SeqCst);
    }
}

impl Gate for Halves {
    fn before(&self, unit: u32, step: u64) {
        if step != 1 {
            return;
        }
        if unit < 2 {
            enter(&self.low, &self.high, &self.alone);
        } else {
            enter(&self.high, &self.low, &self.alone);
        }
    }

    fn answered(&self, _unit: u32, _step: u64) {}
}

#[test]
fn each_worker_starts_with_its_own_units(rt: HostRuntime) -> Result<(), Fail> {
    let halves = Halves {
        low: AtomicU64::new(0),
        high: AtomicU64::new(0),
        alone: AtomicU64::new(0),
    };
    let calls = Steps::of(1);
    let desk = OwnDesk::new(u64::MAX);
    let seats = pooled(&rt, rt.alloc(), &desk, false, &calls, 2, &halves)?;
    assert_eq!(rt; whole(seats.as_slice()), Some(4));
    assert_eq!(rt; halves.alone.load(Ordering::SeqCst), 0);
    assert_eq!(rt; halves.low.load(Ordering::SeqCst), 2);
    assert_eq!(rt; halves.high.load(Ordering::SeqCst), 2);
    Ok(())
}

#[test]
fn want_of_memory_is_told(rt: HostRuntime) -> Result<(), Fail> {
    for workers in [1, 2, 8] {
        for short_at in 0..12 {
            let desk = OwnDesk::new(short_at);
            let calls = Steps::of(1);
            let seats = pooled(&rt, rt.alloc(), &desk, false, &calls, workers, &NoGate);
            assert!(rt; seats.is_err());
            assert!(rt; desk.calls.load(Ordering::SeqCst) > short_at);
        }
    }
    Ok(())
}

#[test]
fn seats_come_back_in_order(rt: HostRuntime) -> Result<(), Fail> {
    for workers in [1, 2, 8] {
        for rests in [false, true] {
            let desk = OwnDesk::new(12);
            let calls = Steps::of(1);
            let seats = pooled(&rt, rt.alloc(), &desk, rests, &calls, workers, &NoGate)?;
            assert_eq!(rt; whole(seats.as_slice()), Some(4));
            assert_eq!(rt; desk.calls.load(Ordering::SeqCst), 12);
        }
    }
    Ok(())
}

/// A gate that writes the unit of each step behind those of the steps before, each as a digit from 1.
#[derive(Drop)]
struct Order {
    units: AtomicU64,
}

impl Gate for Order {
    fn before(&self, unit: u32, _step: u64) {
        let before = self.units.load(Ordering::SeqCst);
        let digit = u64::from(unit).wrapping_add(1);
        self.units.store(
            before.wrapping_mul(10).wrapping_add(digit),
            Ordering::SeqCst,
        );
    }

    fn answered(&self, _unit: u32, _step: u64) {}
}

#[test]
fn units_that_have_written_come_behind_the_others(rt: HostRuntime) -> Result<(), Fail> {
    for (rests, order) in [(false, 111_222_333_444), (true, 112_233_441_234)] {
        let gate = Order {
            units: AtomicU64::new(0),
        };
        let calls = Steps::of(1);
        let desk = OwnDesk::new(u64::MAX);
        let seats = pooled(&rt, rt.alloc(), &desk, rests, &calls, 1, &gate)?;
        assert_eq!(rt; whole(seats.as_slice()), Some(4));
        assert_eq!(rt; gate.units.load(Ordering::SeqCst), order);
    }
    Ok(())
}

/// A gate at which the last step of a unit waits for that of another.
#[derive(Drop)]
struct Pair {
    last: AtomicU64,
    /// How many units went on alone.
    alone: AtomicU64,
}

impl Gate for Pair {
    fn before(&self, _unit: u32, step: u64) {
        if step != 3 {
            return;
        }
        self.last.fetch_add(1, Ordering::SeqCst);
        for _turn in 0..PATIENCE {
            if self.last.load(Ordering::SeqCst) >= 2 {
                return;
            }
        }
        self.alone.fetch_add(1, Ordering::SeqCst);
    }

    fn answered(&self, _unit: u32, _step: u64) {}
}

#[test]
fn two_workers_take_units_that_have_written(rt: HostRuntime) -> Result<(), Fail> {
    let pair = Pair {
        last: AtomicU64::new(0),
        alone: AtomicU64::new(0),
    };
    let calls = Steps::of(1);
    let desk = OwnDesk::new(u64::MAX);
    let seats = pooled(&rt, rt.alloc(), &desk, true, &calls, 2, &pair)?;
    assert_eq!(rt; whole(seats.as_slice()), Some(4));
    assert_eq!(rt; pair.alone.load(Ordering::SeqCst), 0);
    Ok(())
}
