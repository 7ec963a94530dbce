//! A unit's next operation.

ghost use Rattle.std.specs.Prelude.{◌<◌, List, IfOk};
ghost use Rattle.sg_core.specs.Core.{IsCore, IsRunnable, run};
ghost use Rattle.sg_serial.specs.Serial.{IsTeamOf, StaysTeam, GoesOnFrom, AddsEntryOf, sum_of};
ghost use Rattle.sg_unit.specs.Run.{NoAsk};

use sg_base::Instance;
use sg_core::Core;
use sg_unit::{Reply, Unit};
use std::alloc::AllocError;

/// Hands a unit that asks nothing the reply that waits for it, and applies what it gives next.
pub fn give<U: Unit>(
    core: &mut Core<U::Inst, U::Outcome>,
    units: &mut Vec<U>,
    replies: &mut Vec<Option<Reply<U::Inst>>>,
    unit: u32,
) -> Result<(), AllocError>
    requires core { IsCore U.Inst.wants U.Inst.same_datum core.old }
    requires runs { IsRunnable (run U.Inst.wants U.Inst.same_datum core.old) unit }
    requires idle { NoAsk (run U.Inst.wants U.Inst.same_datum core.old) unit }
    requires team { (start : List U) × IsTeamOf U.Inst.Instance U.Unit start units.old.items replies.old.items core.old }
    ensures team { (start : List U) → StaysTeam U.Inst.Instance U.Unit start units.old.items replies.old.items core.old result units.new.items replies.new.items core.new }
    ensures core { IfOk result (λ _. IsCore U.Inst.wants U.Inst.same_datum core.new × GoesOnFrom core.old core.new) }
    ensures adds { IfOk result (λ _. AddsEntryOf core.old core.new unit) }
    ensures falls { IfOk result (λ _. sum_of U.measure units.new.items < sum_of U.measure units.old.items) }
{
    let last = replies[unit as usize].take();
    let op = units[unit as usize].next(last)?;
    let asks = op.is_ask();
    let reply = core.apply(unit, op)?;
    if !asks {
        replies[unit as usize] = Some(reply);
    }
    Ok(())
}
