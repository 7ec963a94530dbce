//! Taking the seats back.

ghost use Rattle.std.specs.Prelude.{◌≡◌, [], Some, false, IfOk, IsOk, All};
ghost use Rattle.sg_broker.specs.Broker.{IsAtLock, begun, told_events};

use crate::core_in_turn::CoreInTurn;
use crate::in_turn::settle;
use crate::unit_seat::UnitSeat;
use sg_base::Instance;
use sg_turn::{Turn, TurnSeat};
use std::alloc::AllocError;
use std::sync::Wait;

/// The lock's seat of a seat that keeps no event, after a last turn where it kept some.
fn settled<I: Instance, R: Drop, Rt: Wait>(
    turn: &Turn<CoreInTurn<I, R>>,
    rt: &Rt,
    seat: UnitSeat<I, R>,
) -> Result<TurnSeat<CoreInTurn<I, R>>, AllocError>
    requires own { IsAtLock turn.now seat }
    requires root { turn.now.root ≡ begun turn.now.root.opening turn.now.root.kinds }
    ensures seat { IfOk result (λ t. (t.turn ≡ turn.now.turn) × (t.root ≡ Some turn.now.root) × (t.number ≡ seat.number) × (t.mine ≡ seat.mine) × (t.inside ≡ false) × (t.kept ≡ [])) }
    ensures none { seat.kept ≡ [] → IsOk result }
{
    let mut seat = seat;
    settle(turn, rt, &mut seat)?;
    let UnitSeat {
        seat,
        number: _,
        spent: _,
        aside: _,
    } = seat;
    Ok(seat)
}

/// The lock's seat of the first of these, which took back those of the others. What they kept is in the log.
pub(crate) fn gather_all<I: Instance, R: Drop, Rt: Wait>(
    turn: &Turn<CoreInTurn<I, R>>,
    rt: &Rt,
    first: UnitSeat<I, R>,
    others: Vec<UnitSeat<I, R>>,
) -> Result<TurnSeat<CoreInTurn<I, R>>, AllocError>
    requires root { turn.now.root ≡ begun turn.now.root.opening turn.now.root.kinds }
    requires first { IsAtLock turn.now first }
    requires others { All (λ s. IsAtLock turn.now s) others.items }
    ensures first { IfOk result (λ t. (t.turn ≡ turn.now.turn) × (t.root ≡ Some turn.now.root) × (t.number ≡ first.number) × (t.mine ≡ first.mine) × (t.inside ≡ false)) }
    ensures kept { IfOk result (λ t. t.kept ≡ told_events others.items) }
    ensures none { first.kept ≡ [] → All (λ s. s.kept ≡ []) others.items → IsOk result }
{
    let mut all = settled(turn, rt, first)?;
    let mut left = others;
    while let Some(other) = left.pop() {
        let seat = settled(turn, rt, other)?;
        turn.gather(&mut all, seat);
    }
    Ok(all)
}
