//! Making the seats.
ghost use Rattle.std.specs.Prelude.{◌≡◌, ◌<◌, ◌≤◌, [], vec_capacity};
ghost use Rattle.sg_turn.specs.View.{first_view};
ghost use Rattle.sg_turn.specs.Turn.{IsSized, fresh_seats};

use crate::in_turn::{InTurn, Origin};
use crate::steps::Deal;
use crate::storied::Storied;
use crate::turn_seat::TurnSeat;
use crate::view::View;
use atomic_table::{Seat, Shared};

/// Makes all the seats out of the first one, each from the one before it.
pub(crate) fn deal<V: Storied>(
    shared: &Shared<Option<V>, View<V::Entry, V::Root>, Origin<V>, InTurn<V>>,
    first: Seat<Option<V>, View<V::Entry, V::Root>>,
    seats: u32,
    room: Vec<TurnSeat<V>>,
) -> Vec<TurnSeat<V>>
    requires table { (first.table_id ≡ shared.now.table_id) × IsSized shared.now.table_id }
    requires first { first.me ≡ (first_view (V.root shared.now.key.value.value), []) }
    requires seats { (0 < seats) × (shared.now.key.seats ≡ seats) }
    requires room { (room.items ≡ []) × (seats ≤ vec_capacity room) }
    ensures { result.items ≡ fresh_seats shared.now.table_id (V.root shared.now.key.value.value) seats }
{
    let mut all = room;
    let mut last = first;
    for i in 1..seats {
        let next = shared.split_seat::<Deal>(&mut last);
        all.push_reserved(TurnSeat { seat: last });
        last = next;
    }
    all.push_reserved(TurnSeat { seat: last });
    all
}
