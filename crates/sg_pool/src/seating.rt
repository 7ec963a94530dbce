ghost use Rattle.std.specs.Prelude.{◌≡◌, ◌≤◌, IfOk, All, [], length, map, vec_capacity, false};
ghost use Rattle.sg_pool.specs.Pool.{AreNumbered, AreNewlySeated};

use crate::running::Running;
use sg_unit::{Seat, Unit};
use std::alloc::{AllocError, Global};

/// Each of these units, which have given nothing, at the new seat of its number. Takes memory for the list, and constant time
/// for each unit.
pub fn seat_all<U: Unit, S: Seat<Inst = U::Inst, Outcome = U::Outcome>>(
    alloc: Global,
    units: Vec<U>,
    seats: Vec<S>,
) -> Result<Vec<Running<U, S>>, AllocError>
    requires count { length seats.items ≡ length units.items }
    requires new { AreNewlySeated U.Unit S.Seat units.items seats.items }
    ensures numbered { IfOk result (λ r. AreNumbered S.number r.items) }
    ensures going { IfOk result (λ r. All (λ x. x.failed ≡ false) r.items) }
    ensures units { IfOk result (λ r. map (λ x. x.unit) r.items ≡ units.items) }
    ensures seats { IfOk result (λ r. map (λ x. x.seat) r.items ≡ seats.items) }
{
    let room = Vec::with_capacity(alloc, units.len())?;
    Ok(seat_each(units, seats, room))
}

/// The same, where there is room.
fn seat_each<U: Unit, S: Seat<Inst = U::Inst, Outcome = U::Outcome>>(
    units: Vec<U>,
    seats: Vec<S>,
    room: Vec<Running<U, S>>,
) -> Vec<Running<U, S>>
    requires count { length seats.items ≡ length units.items }
    requires new { AreNewlySeated U.Unit S.Seat units.items seats.items }
    requires room { (room.items ≡ []) × (length units.items ≤ vec_capacity room) }
    ensures numbered { AreNumbered S.number result.items }
    ensures going { All (λ x. x.failed ≡ false) result.items }
    ensures units { map (λ x. x.unit) result.items ≡ units.items }
    ensures seats { map (λ x. x.seat) result.items ≡ seats.items }
{
    let mut team = room;
    let mut units = units;
    let mut seats = seats;
    while let Some(unit) = units.pop() {
        let Some(seat) = seats.pop() else {
            unreachable!()
        };
        team.push_reserved(Running::new(unit, seat));
    }
    team.reverse();
    team
}
