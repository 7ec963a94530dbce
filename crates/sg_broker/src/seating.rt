//! The seats of units, out of those of the lock.

ghost use Rattle.std.specs.Prelude.{◌≡◌, ◌≤◌, [], None, length, vec_capacity};
ghost use Rattle.sg_core.specs.declared.found_ask.FoundAsk.TheVariants.{Nothing};
ghost use Rattle.sg_broker.specs.Broker.{begun, new_seats};
ghost use Rattle.sg_turn.specs.Turn.{fresh_seats};

use crate::aside::Aside;
use crate::core_in_turn::CoreInTurn;
use crate::unit_seat::UnitSeat;
use sg_base::Instance;
use sg_core::Kept;
use sg_turn::{Turn, TurnSeat};
use std::alloc::Global;

/// What a new seat has beside its turns. Takes no memory.
fn nothing<I: Instance, R: Drop>(alloc: Global) -> Aside<I, R>
    ensures { (result.sight ≡ None) × (result.kept.events.items ≡ []) × (result.kept.ask ≡ Nothing) }
{
    Aside {
        sight: None,
        count: 0,
        kept: Kept::new(alloc),
    }
}

/// A seat for each unit, with the lock's seat of its number.
pub(crate) fn seat_all<I: Instance, R: Drop>(
    alloc: Global,
    turn: &Turn<CoreInTurn<I, R>>,
    seats: Vec<TurnSeat<CoreInTurn<I, R>>>,
    room: Vec<UnitSeat<I, R>>,
    units: u32,
) -> Vec<UnitSeat<I, R>>
    requires root { turn.now.root ≡ begun turn.now.root.opening turn.now.root.kinds }
    requires seats { seats.items ≡ fresh_seats turn.now.turn turn.now.root units }
    requires room { (room.items ≡ []) × (units ≤ vec_capacity room) }
    ensures { result.items ≡ new_seats (record { turn = turn.now.turn; opening = turn.now.root.opening; kinds = turn.now.root.kinds }) units }
{
    let mut places = room;
    let mut left = seats;
    let mut number = units;
    while let Some(seat) = left.pop() {
        number -= 1;
        places.push_reserved(UnitSeat {
            seat,
            number,
            spent: false,
            aside: nothing(alloc),
        });
    }
    places.reverse();
    places
}
