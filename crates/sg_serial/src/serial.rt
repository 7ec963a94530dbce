ghost use Rattle.std.specs.Prelude.{◌≡◌, [], List, IfOk};
ghost use Rattle.sg_core.specs.Core.{IsCore, run};
ghost use Rattle.sg_core.specs.Over.{HasRun};
ghost use Rattle.sg_serial.specs.Serial.{IsTeamOf, StaysTeam, GoesOnFrom, IsServedBy, StepsIfRunnable};
ghost use Rattle.sg_serial.specs.Replies.{AreNone};
ghost use Rattle.sg_unit.specs.Served.{AreNew};

use crate::giving::give;
use crate::pushing::{push, settle};
use sg_base::Instance;
use sg_core::Core;
use sg_unit::{Reply, Unit};
use std::alloc::{AllocError, Global};

/// No reply for each of so many units.
fn no_replies<I: Instance>(alloc: Global, count: usize) -> Result<Vec<Option<Reply<I>>>, AllocError>
    ensures { IfOk result (λ v. AreNone v.items count) }
{
    let mut replies = Vec::new(alloc);
    for _unit in 0..count {
        match replies.push(None) {
            Ok(()) => {}
            Err(_) => return Err(AllocError),
        }
    }
    Ok(replies)
}

/// One step of a unit, if it runs: its ask goes on, or it gives its next operation.
fn step<U: Unit>(
    core: &mut Core<U::Inst, U::Outcome>,
    units: &mut Vec<U>,
    replies: &mut Vec<Option<Reply<U::Inst>>>,
    unit: u32,
) -> Result<(), AllocError>
    requires core { IsCore U.Inst.wants U.Inst.same_datum core.old }
    requires team { (start : List U) × IsTeamOf U.Inst.Instance U.Unit start units.old.items replies.old.items core.old }
    ensures team { (start : List U) → StaysTeam U.Inst.Instance U.Unit start units.old.items replies.old.items core.old result units.new.items replies.new.items core.new }
    ensures core { IfOk result (λ _. IsCore U.Inst.wants U.Inst.same_datum core.new × GoesOnFrom core.old core.new) }
    ensures steps { IfOk result (λ _. StepsIfRunnable U.Inst.wants U.Inst.same_datum core.old core.new unit) }
{
    if !core.is_runnable(unit) {
        return Ok(());
    }
    if !push::<U>(core, replies, unit)? {
        give::<U>(core, units, replies, unit)?;
    }
    Ok(())
}

/// Runs units that have given nothing yet, one for each number and listed by number, on a core at its opening, until none of
/// them can go on. First each number in `order` makes one step of that unit, and is passed by where the unit has ended or
/// waits, or where no unit has it. Then the least unit that runs steps, as long as there is one.
///
/// The core that is answered has ended or is stuck: no unit is live, or some are and each of them waits. Each unit is honest by
/// its entries. Want of memory may be met at any step; the core and the units are gone then.
///
/// Each step adds one entry to the log, and costs what the core's operation and the unit's `next` cost, and past `order` a
/// search for the least unit that runs (`Core::least_runnable`). A number that is passed by costs a look-up.
pub fn run_serial<U: Unit>(
    alloc: Global,
    core: Core<U::Inst, U::Outcome>,
    units: Vec<U>,
    order: &[u32],
) -> Result<Core<U::Inst, U::Outcome>, AllocError>
    requires opening { core.log ≡ [] }
    requires new { AreNew U.number U.fixed U.opening U.kinds U.stands core.opening core.kinds units.items }
    ensures ran { IfOk result (HasRun U.Inst.wants U.Inst.same_datum U.opening U.kinds U.owes_edge U.owes_datum U.may_ask U.comes_to U.number U.fixed U.stands core units.items) }
    ensures served { IfOk result (λ c. IsServedBy (run U.Inst.wants U.Inst.same_datum core) order.now c.log) }
{
    let mut core = core;
    let mut units = units;
    let mut replies = no_replies(alloc, units.len())?;
    // For the proof alone, which takes from this call that the log is a legal run.
    let _log = core.log();
    for unit in order {
        step::<U>(&mut core, &mut units, &mut replies, *unit)?;
    }
    while let Some(unit) = settle::<U>(&mut core, &mut replies)? {
        give::<U>(&mut core, &mut units, &mut replies, unit)?;
    }
    Ok(core)
}
