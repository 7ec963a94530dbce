ghost use Rattle.std.specs.Prelude.{◌≡◌, ◌⊎◌, ◌<◌, ◌+◌, ◌^◌, [], true, false, None, length, IfOk, OnErr};
ghost use Rattle.sg_pool.specs.declared.after.After.TheVariants.{IsStuck};
ghost use Rattle.sg_pool.specs.declared.doing.Doing.TheVariants.{Gives, HasEnded};
ghost use Rattle.sg_pool.specs.Driving.{IsDrivenAt, MetStuck, AddsOne, is_live_at, woken_of};
ghost use Rattle.sg_unit.specs.Served.{SomeStands, IsHonestBy};
ghost use Rattle.sg_unit.specs.Trace.{told};

use crate::after::After;
use crate::doing::Doing;
use crate::driving::{advance, give, take};
use crate::stepped::Stepped;
use sg_unit::{Desk, Gate, Reply, Seat, Unit};
use std::alloc::AllocError;
use std::marker::Model;
use std::sync::Wait;
use std::thread::Threads;

/// A unit at its seat, which one worker has in hand at a time. While no want of memory was met, the unit stands for the
/// entries of its seat, is honest by them, and what comes next for it is what they tell.
///
/// Contracts see the unit, the seat, what comes next, whether every live unit was found to wait, and whether want of memory
/// was met.
#[derive(Drop)]
pub struct Running<U: Unit, S: Seat<Inst = U::Inst, Outcome = U::Outcome>> {
    unit: U,
    seat: S,
    last: Option<Reply<U::Inst>>,
    doing: Doing,
    steps: u64,
    stuck: bool,
    failed: bool,
}

impl<U: Unit, S: Seat<Inst = U::Inst, Outcome = U::Outcome>> Model for Running<U, S> {
    ghost use Rattle.std.specs.Prelude.{◌≡◌, ◌<◌, ◌^◌, true, false, length};
    ghost use Rattle.sg_pool.specs.Driving.{IsDriven, MetStuck, RunningOf};

    ghost Value = { RunningOf U S };

    ghost view = { λ r. record { unit = r.unit; seat = r.seat; doing = r.doing; stuck = r.stuck; failed = r.failed } };

    ghost invariant = { λ r. (r.failed ≡ false → (S.spent r.seat ≡ false) × (r.steps ≡ length (S.mine r.seat)) × (r.steps < 2 ^ 63)
        × IsDriven U.Inst.wants U.Inst.same_datum U.opening U.kinds U.owes_edge U.owes_datum U.may_ask U.comes_to U.number U.fixed U.stands (S.opening r.seat) (S.kinds r.seat) (S.mine r.seat) (S.number r.seat) r.unit r.last r.doing
        × (r.stuck ≡ true → MetStuck (S.mine r.seat))) };
}

impl<U: Unit, S: Seat<Inst = U::Inst, Outcome = U::Outcome>> Running<U, S> {
    /// A unit that has given nothing, at the new seat of its number. Takes no memory and constant time.
    pub fn new(unit: U, seat: S) -> Running<U, S>
        requires numbers { (U.number unit ≡ S.number seat) × (S.number seat < length (S.opening seat).made) }
        requires new { U.stands unit [] None × (S.mine seat ≡ []) × (S.spent seat ≡ false) }
        requires run { (S.opening seat ≡ U.opening (U.fixed unit)) × (S.kinds seat ≡ U.kinds (U.fixed unit)) }
        ensures { result ≡ record { unit = unit; seat = seat; doing = Gives; stuck = false; failed = false } }
    {
        Running {
            unit,
            seat,
            last: None,
            doing: Doing::Gives,
            steps: 0,
            stuck: false,
            failed: false,
        }
    }

    /// The number of its seat. Constant time.
    pub fn number(&self) -> u32
        ensures { result ≡ S.number self.now.seat }
    {
        self.seat.number()
    }

    /// Whether want of memory was met. Constant time.
    pub fn has_failed(&self) -> bool
        ensures { result ≡ self.now.failed }
    {
        self.failed
    }

    /// Whether an entry of it was answered that every live unit waits. Constant time.
    pub fn is_stuck(&self) -> bool
        ensures { result ≡ self.now.stuck }
    {
        self.stuck
    }

    /// Whether the unit's last call gave the last write of a group (`Unit::has_written`).
    pub fn has_written(&self) -> bool {
        self.unit.has_written()
    }

    /// What comes next for the unit. Where that is nothing, it has ended, and takes no step. Constant time.
    pub fn doing(&self) -> Doing
        ensures { result ≡ self.now.doing }
    {
        self.doing
    }

    /// The seat of a unit that met no want of memory. The unit stands for the seat's entries, by which it is honest, and is
    /// live unless nothing comes next for it. If it was found stuck, some entry was answered that every live unit waits.
    /// Takes no memory and constant time.
    pub fn into_seat(self) -> S
        requires going { self.failed ≡ false }
        ensures seat { result ≡ self.seat }
        ensures unspent { S.spent result ≡ false }
        ensures run { (S.opening result ≡ U.opening (U.fixed self.unit)) × (S.kinds result ≡ U.kinds (U.fixed self.unit)) }
        ensures stands { SomeStands U.number U.fixed U.stands (S.mine result) (S.number result) (U.fixed self.unit) }
        ensures honest { IsHonestBy U.Inst.wants U.Inst.same_datum U.opening U.kinds U.owes_edge U.owes_datum U.may_ask U.comes_to (S.mine result) (S.number result) (U.fixed self.unit) }
        ensures ended { self.doing ≡ HasEnded → is_live_at U.Inst.Instance S.Seat result ≡ false }
        ensures live { (self.doing ≡ HasEnded → ⊥) → is_live_at U.Inst.Instance S.Seat result ≡ true }
        ensures stuck { self.stuck ≡ true → MetStuck (S.mine result) }
    {
        self.seat
    }

    /// The units that its last operation lets go on, as its entries tell: none after an ask, an advance or a take.
    /// Constant time.
    pub fn woken(&self) -> &[u32]
        requires going { self.now.failed ≡ false }
        ensures { result.now ≡ woken_of (told (S.mine self.now.seat)).reply }
    {
        match &self.last {
            Some(Reply::Done { woken }) => woken.as_slice(),
            Some(_) => &[],
            None => &[],
        }
    }
}

/// One step of the unit at the desk of its seat: its ask goes on, its answer is taken, or it is handed its reply and gives
/// its next operation. One entry of the unit is added, and the result is what the entry's reply told. After want of memory
/// the entries are as they were, and the unit is of no more use. The gate is told of the step before and after it, with the
/// step's number.
///
/// May wait for the desk. Costs what the unit's call (`Unit::next`) and the desk's (`Desk::apply`) cost, and constant time
/// besides.
pub fn step<
    U: Unit,
    K: Desk<Inst = U::Inst, Outcome = U::Outcome>,
    G: Gate,
    Rt: Threads + Wait + Sync,
>(rt: &Rt, running: &mut Running<U, K::Place>, desk: &K, gate: &G) -> Result<After, AllocError>
    requires seat { K.sits desk.now running.old.seat }
    requires goes_on { (running.old.failed ≡ false) × (running.old.doing ≡ HasEnded → ⊥) }
    ensures seat { K.sits desk.now running.new.seat × (K.Place.number running.new.seat ≡ K.Place.number running.old.seat) }
    ensures fixed { (U.fixed running.new.unit ≡ U.fixed running.old.unit) × (U.number running.new.unit ≡ U.number running.old.unit) }
    ensures ok { IfOk result (λ _. running.new.failed ≡ false) }
    ensures stuck { IfOk result (λ a. a ≡ IsStuck → running.new.stuck ≡ true) }
    ensures added { IfOk result (λ a. AddsOne (K.Place.mine running.old.seat) (K.Place.number running.old.seat) a (K.Place.mine running.new.seat)) }
    ensures err { OnErr result ((running.new.failed ≡ true) × (K.Place.mine running.new.seat ≡ K.Place.mine running.old.seat)) }
{
    let number = running.seat.number();
    let step = running.steps + 1;
    gate.before(number, step);
    match step_by::<U, K, Rt>(
        rt,
        &mut running.unit,
        desk,
        &mut running.seat,
        &mut running.last,
        running.doing,
    ) {
        Ok(stepped) => {
            gate.answered(number, step);
            running.doing = stepped.doing;
            running.steps = step;
            let stuck = meets_stuck(running.stuck, stepped.after);
            running.stuck = stuck;
            Ok(stepped.after)
        }
        Err(error) => {
            running.failed = true;
            Err(error)
        }
    }
}

/// Whether every live unit was found to wait, before or by this step.
fn meets_stuck(stuck: bool, after: After) -> bool
    ensures met { result ≡ true → (stuck ≡ true) ⊎ (after ≡ IsStuck) }
    ensures kept { stuck ≡ true → result ≡ true }
    ensures now { after ≡ IsStuck → result ≡ true }
{
    match after {
        After::IsStuck => true,
        After::Goes => stuck,
        After::Waits => stuck,
    }
}

/// The step that comes next for a unit.
fn step_by<U: Unit, K: Desk<Inst = U::Inst, Outcome = U::Outcome>, Rt: Threads + Wait + Sync>(
    rt: &Rt,
    unit: &mut U,
    desk: &K,
    seat: &mut K::Place,
    last: &mut Option<Reply<U::Inst>>,
    doing: Doing,
) -> Result<Stepped, AllocError>
    requires seat { K.sits desk.now seat.old × (K.Place.spent seat.old ≡ false) }
    requires goes_on { doing ≡ HasEnded → ⊥ }
    requires driven { IsDrivenAt U.Inst.Instance U.Unit K.Place.Seat seat.old unit.old last.old doing }
    ensures driven { IfOk result (λ s. IsDrivenAt U.Inst.Instance U.Unit K.Place.Seat seat.new unit.new last.new s.doing) }
    ensures stuck { IfOk result (λ s. s.after ≡ IsStuck → MetStuck (K.Place.mine seat.new)) }
    ensures met { IfOk result (λ _. MetStuck (K.Place.mine seat.old) → MetStuck (K.Place.mine seat.new)) }
    ensures longer { IfOk result (λ _. (length (K.Place.mine seat.new) ≡ length (K.Place.mine seat.old) + 1) × (length (K.Place.mine seat.new) < 2 ^ 63)) }
    ensures added { IfOk result (λ s. AddsOne (K.Place.mine seat.old) (K.Place.number seat.old) s.after (K.Place.mine seat.new)) }
    ensures err { OnErr result (K.Place.mine seat.new ≡ K.Place.mine seat.old) }
    ensures unspent { IfOk result (λ _. K.Place.spent seat.new ≡ false) }
    ensures seat { K.sits desk.now seat.new × (K.Place.number seat.new ≡ K.Place.number seat.old) }
    ensures fixed { (U.fixed unit.new ≡ U.fixed unit.old) × (U.number unit.new ≡ U.number unit.old) }
{
    match doing {
        Doing::Gives => give::<U, K, Rt>(rt, unit, desk, seat, last),
        Doing::Advances => advance::<U, K, Rt>(rt, unit, desk, seat, last),
        Doing::Takes => take::<U, K, Rt>(rt, unit, desk, seat, last),
        Doing::HasEnded => unreachable!(),
    }
}
