//! Giving the value back.
ghost use Rattle.std.specs.Prelude.{◌≡◌, ℕ, [], ◌∷◌, Some, None};
ghost use Rattle.sg_turn.specs.declared.stage.Stage.TheVariants.{Inside};
ghost use Rattle.sg_turn.specs.Steps.{Gives, Ends};
ghost use Rattle.sg_turn.specs.Turn.{IsSized, IsSame};

use crate::in_turn::{InTurn, Origin};
use crate::sleeping::wake_one;
use crate::steps::Serve;
use crate::storied::Storied;
use crate::view::View;
use atomic_table::{Seat, Shared};

/// Gives the value back, and serves the next ticket.
pub(crate) fn give<V: Storied>(
    shared: &Shared<Option<V>, View<V::Entry, V::Root>, Origin<V>, InTurn<V>>,
    seat: &mut Seat<Option<V>, View<V::Entry, V::Root>>,
    value: V,
)
    requires table { (seat.old.table_id ≡ shared.now.table_id) × IsSized shared.now.table_id }
    requires inside { ((t : ℕ) × (seat.old.me.0.stage ≡ Inside t)) × (seat.old.me.1 ≡ (0, None) ∷ []) }
    requires root { seat.old.me.0.root ≡ Some (V.root value) }
    requires gives { Gives V.entries V.teller seat.old.me.0 value }
    ensures seat { IsSame seat.old seat.new × (seat.new.me.1 ≡ []) }
    ensures view { Ends seat.old.me.0 (V.entries value) seat.new.me.0 }
{
    let found = shared.exchange(seat, 0, Some(value));
    let None = found else { unreachable!() };
    shared.fetch_add::<Serve<V>>(seat, 1, 1);
    wake_one::<V>(shared, seat);
}
