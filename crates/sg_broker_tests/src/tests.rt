//! Units that end at a broker.

ghost use Rattle.std.specs.Prelude.{◌≡◌, [], ◌<◌, length, false, IfOk, IfSome};
ghost use Rattle.sg_broker.specs.Broker.{IsAt};

use sg_broker::{Broker, UnitSeat};
use sg_core::{Core, Phase};
use sg_numbers::Numbers;
use sg_query::KindTable;
use sg_state::Opening;
use sg_unit::{Op, Reply};
use std::alloc::{AllocError, Global};
use std::sync::Wait;
use std::test::Fail;

/// A core of two units with no scope and no kind.
fn two_units(alloc: Global) -> Result<Option<Core<Numbers, u64>>, AllocError>
    ensures { IfOk result (λ o. IfSome o (λ c. (c.log ≡ []) × (length c.opening.made ≡ 2))) }
{
    let opening = Opening {
        scopes: Vec::new(alloc),
        edges: Vec::new(alloc),
        given: Vec::new(alloc),
        row_holds: Vec::new(alloc),
        datum_holds: Vec::new(alloc),
        units: 2,
    };
    if !opening.is_sound() {
        return Ok(None);
    }
    let core = Core::open(alloc, opening, KindTable::new(alloc, Vec::new(alloc))?)?;
    Ok(Some(core))
}

/// Ends the unit of a new seat. Whether the reply was that nobody wakes.
fn end<Rt: Wait>(
    rt: &Rt,
    broker: &Broker<Numbers, u64>,
    seat: UnitSeat<Numbers, u64>,
    outcome: u64,
) -> Result<(UnitSeat<Numbers, u64>, bool), AllocError>
    requires own { IsAt broker.now seat × (seat.spent ≡ false) }
    requires new { (seat.mine ≡ []) × (seat.number < length broker.now.opening.made) }
    ensures { IfOk result (λ r. IsAt broker.now r.0) }
{
    let mut seat = seat;
    let reply = broker.apply(rt, &mut seat, Op::End(outcome))?;
    let none = matches!(&reply, Reply::Done { woken } if woken.as_slice().is_empty());
    Ok((seat, none))
}

/// Two units end at a broker, which is then closed.
fn ends<Rt: Wait>(rt: &Rt, alloc: Global) -> Result<Option<Core<Numbers, u64>>, AllocError> {
    let Some(core) = two_units(alloc)? else {
        return Ok(None);
    };
    let (broker, mut seats) = Broker::open(alloc, core)?;
    let one = seats.pop().unwrap();
    let zero = seats.pop().unwrap();
    let (one, alone) = end(rt, &broker, one, 7)?;
    let (zero, done) = end(rt, &broker, zero, 5)?;
    if !alone || !done {
        return Ok(None);
    }
    let mut back = Vec::new(alloc);
    back.push(zero)?;
    back.push(one)?;
    Ok(Some(broker.close(rt, back)?))
}

#[test]
fn two_units_end(rt: HostRuntime) -> Result<(), Fail> {
    let ended = ends(&rt, rt.alloc())?;
    assert!(rt;
        matches!(&ended, Some(core) if core.phase() == Phase::Ended
            && core.log().len() == 2
            && core.result(0) == Some(&5)
            && core.result(1) == Some(&7))
    );
    Ok(())
}
