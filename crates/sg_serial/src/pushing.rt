//! Asks that go on.

ghost use Rattle.std.specs.Prelude.{◌≡◌, ◌<◌, List, IfOk, IsTrue, IsFalse};
ghost use Rattle.sg_core.specs.Core.{IsCore, IsRunnable, run};
ghost use Rattle.sg_serial.specs.Serial.{IsTeamOf, StaysTeam, GoesOnFrom, AddsEntryOf, AddsLeastFirst, IsNextIdle, asks_left};
ghost use Rattle.sg_unit.specs.Run.{NoAsk};

use sg_core::{AskState, Core};
use sg_unit::{Op, Reply, Unit};
use std::alloc::AllocError;

/// Advances the ask of a unit, or takes its answer; and whether the unit had an ask.
pub fn push<U: Unit>(
    core: &mut Core<U::Inst, U::Outcome>,
    replies: &mut Vec<Option<Reply<U::Inst>>>,
    unit: u32,
) -> Result<bool, AllocError>
    requires core { IsCore U.Inst.wants U.Inst.same_datum core.old }
    requires runs { IsRunnable (run U.Inst.wants U.Inst.same_datum core.old) unit }
    requires team { (start units : List U) × IsTeamOf U.Inst.Instance U.Unit start units replies.old.items core.old }
    ensures team { (start units : List U) → StaysTeam U.Inst.Instance U.Unit start units replies.old.items core.old result units replies.new.items core.new }
    ensures core { IfOk result (λ _. IsCore U.Inst.wants U.Inst.same_datum core.new × GoesOnFrom core.old core.new) }
    ensures adds { IfOk result (λ b. IsTrue b → AddsEntryOf core.old core.new unit) }
    ensures falls { IfOk result (λ b. IsTrue b → asks_left U.Inst.wants U.Inst.same_datum core.new < asks_left U.Inst.wants U.Inst.same_datum core.old) }
    ensures idle { IfOk result (λ b. IsFalse b → NoAsk (run U.Inst.wants U.Inst.same_datum core.new) unit × (core.new ≡ core.old)) }
{
    match core.ask(unit) {
        AskState::Idle => Ok(false),
        AskState::Open => {
            core.apply(unit, Op::Advance)?;
            Ok(true)
        }
        AskState::Ready => {
            let reply = core.apply(unit, Op::Take)?;
            replies[unit as usize] = Some(reply);
            Ok(true)
        }
    }
}

/// Lets the asks of the least units that run go on, until the least unit that runs asks nothing: that unit, or none where no
/// unit runs.
pub fn settle<U: Unit>(
    core: &mut Core<U::Inst, U::Outcome>,
    replies: &mut Vec<Option<Reply<U::Inst>>>,
) -> Result<Option<u32>, AllocError>
    requires core { IsCore U.Inst.wants U.Inst.same_datum core.old }
    requires team { (start units : List U) × IsTeamOf U.Inst.Instance U.Unit start units replies.old.items core.old }
    ensures team { (start units : List U) → StaysTeam U.Inst.Instance U.Unit start units replies.old.items core.old result units replies.new.items core.new }
    ensures core { IfOk result (λ _. IsCore U.Inst.wants U.Inst.same_datum core.new × GoesOnFrom core.old core.new) }
    ensures adds { IfOk result (λ _. AddsLeastFirst U.Inst.wants U.Inst.same_datum core.old core.new) }
    ensures least { IfOk result (IsNextIdle (run U.Inst.wants U.Inst.same_datum core.new)) }
{
    while let Some(unit) = core.least_runnable() {
        if !push::<U>(core, replies, unit)? {
            return Ok(Some(unit));
        }
    }
    Ok(None)
}
