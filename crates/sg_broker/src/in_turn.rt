//! The turn of a seat.

ghost use Rattle.std.specs.Prelude.{◌≡◌, [], false, IfOk, OnOk, OnErr, IsOk};
ghost use Rattle.sg_broker.specs.Aside.{HoldsAhead};
ghost use Rattle.sg_broker.specs.Broker.{IsAtLock, Adds, Spends, begun};
ghost use Rattle.sg_core.specs.Core.{entry};
ghost use Rattle.sg_unit.specs.Own.{MayBy, CanReply};
ghost use Rattle.sg_unit.specs.Run.{run_of};
ghost use Rattle.sg_unit.specs.Unit.{setting_of};

use crate::core_in_turn::CoreInTurn;
use crate::giving::give;
use crate::logging::{hand_in, step};
use crate::unit_seat::UnitSeat;
use sg_base::Instance;
use sg_core::Ahead;
use sg_turn::Turn;
use sg_unit::{Op, Reply};
use std::alloc::AllocError;
use std::sync::Wait;

/// Waits for the seat's turn, and applies one operation of its unit behind the events that the seat kept.
pub(crate) fn apply_in_turn<I: Instance, R: Drop, Rt: Wait>(
    turn: &Turn<CoreInTurn<I, R>>,
    rt: &Rt,
    seat: &mut UnitSeat<I, R>,
    op: Op<I, R>,
    ahead: Option<Ahead<I>>,
) -> Result<Reply<I>, AllocError>
    requires own { IsAtLock turn.now seat.old × (seat.old.spent ≡ false) }
    requires root { turn.now.root ≡ begun turn.now.root.opening turn.now.root.kinds }
    requires may { MayBy (setting_of I.wants I.same_datum seat.old.opening seat.old.kinds) seat.old.mine seat.old.number op }
    requires ahead { HoldsAhead (setting_of I.wants I.same_datum seat.old.opening seat.old.kinds) seat.old.seen op ahead }
    ensures ok { IfOk result (λ y. Adds (setting_of I.wants I.same_datum seat.old.opening seat.old.kinds) seat.old (entry seat.old.number op y) seat.new) }
    ensures reply { IfOk result (CanReply (run_of (setting_of I.wants I.same_datum seat.old.opening seat.old.kinds) seat.old.mine) seat.old.number op) }
    ensures err { OnErr result (Spends seat.old seat.new) }
    ensures seat { IsAtLock turn.now seat.new × (seat.new.number ≡ seat.old.number) }
{
    let CoreInTurn { mut core } = turn.lock(rt, &mut seat.seat);
    let before = core.log().len();
    let reply = step(&mut core, seat.number, &mut seat.aside, op, ahead);
    give(turn, &mut seat.seat, core, before);
    seat.spent = reply.is_err();
    reply
}

/// Waits for a last turn of a seat that keeps events, and hands them in. A seat that keeps none needs no turn, and one that is
/// spent has none.
pub(crate) fn settle<I: Instance, R: Drop, Rt: Wait>(
    turn: &Turn<CoreInTurn<I, R>>,
    rt: &Rt,
    seat: &mut UnitSeat<I, R>,
) -> Result<(), AllocError>
    requires own { IsAtLock turn.now seat.old }
    requires root { turn.now.root ≡ begun turn.now.root.opening turn.now.root.kinds }
    ensures ok { OnOk result (seat.new.kept ≡ []) }
    ensures same { (seat.new.mine ≡ seat.old.mine) × (seat.new.number ≡ seat.old.number) }
    ensures seat { IsAtLock turn.now seat.new }
    ensures none { seat.old.kept ≡ [] → IsOk result }
{
    if seat.aside.kept.events.is_empty() {
        return Ok(());
    }
    if seat.spent {
        return Err(AllocError);
    }
    let CoreInTurn { mut core } = turn.lock(rt, &mut seat.seat);
    let before = core.log().len();
    let done = hand_in(&mut core, seat.number, &mut seat.aside);
    give(turn, &mut seat.seat, core, before);
    seat.spent = done.is_err();
    done
}
