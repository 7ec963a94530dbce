//! Taking all seats back.
ghost use Rattle.std.specs.Prelude.{◌≡◌, length, [], All, false};
ghost use Rattle.sg_turn.specs.Stage.{IsFree};
ghost use Rattle.sg_turn.specs.TurnSeat.{known, Keeps};
ghost use Rattle.sg_turn.specs.Turn.{IsSized};

use crate::in_turn::{InTurn, Origin};
use crate::steps::Gather;
use crate::storied::Storied;
use crate::turn_seat::TurnSeat;
use crate::view::View;
use atomic_table::{Seat, Shared};

/// Takes all the other seats back into the first one.
pub(crate) fn gather_all<V: Storied>(
    shared: &Shared<Option<V>, View<V::Entry, V::Root>, Origin<V>, InTurn<V>>,
    first: TurnSeat<V>,
    others: Vec<TurnSeat<V>>,
) -> Seat<Option<V>, View<V::Entry, V::Root>>
    requires table { (first.turn ≡ shared.now.table_id) × IsSized shared.now.table_id }
    requires outside { (first.inside ≡ false) × (first.kept ≡ []) }
    requires own { All
        (λ s. (s.turn ≡ shared.now.table_id) × (s.inside ≡ false) × (s.kept ≡ []))
        others.items }
    ensures first { (result.table_id ≡ first.turn)
        × (record (known first.turn result.me.0) { kept = first.kept } ≡ first)
        × IsFree result.me.0.stage }
    ensures count { length result.me.0.kept ≡ length others.items }
    ensures others { All (λ s. Keeps result.me.0 s.number s.mine) others.items }
{
    let TurnSeat { seat: mut gatherer } = first;
    let mut left = others;
    while let Some(other) = left.pop() {
        let TurnSeat { seat } = other;
        shared.join_seat::<Gather>(&mut gatherer, seat);
    }
    gatherer
}
