//! Giving the core back at the end of a turn.

ghost use Rattle.std.specs.Prelude.{◌≡◌, ◌++◌, ◌<◌, ◌^◌, [], true, false, List, All, length};
ghost use Rattle.sg_unit.specs.declared.entry.Entry.{Entry as EntryOf};
ghost use Rattle.sg_broker.specs.Broker.{begun, given_back};
ghost use Rattle.sg_turn.specs.Turn.{IsOf};

use crate::core_in_turn::CoreInTurn;
use sg_base::Instance;
use sg_core::Core;
use sg_turn::{Turn, TurnSeat};

/// Gives back a core whose log was so long at the beginning of the turn. Where the log has gained nothing the lock's seat is
/// spent.
pub(crate) fn give<I: Instance, R: Drop>(
    turn: &Turn<CoreInTurn<I, R>>,
    seat: &mut TurnSeat<CoreInTurn<I, R>>,
    core: Box<Core<I, R>>,
    before: usize,
)
    requires own { IsOf turn.now seat.old }
    requires inside { (seat.old.inside ≡ true) × (seat.old.spent ≡ false) }
    requires root { begun core.value.opening core.value.kinds ≡ turn.now.root }
    requires short { length core.value.log < 2 ^ 63 }
    requires before { before ≡ length seat.old.seen }
    requires more { (more : List (EntryOf I R I.Datum I.Pred)) × (core.value.log ≡ seat.old.seen ++ more) × All (λ e. e.unit ≡ seat.old.number) more }
    ensures { (more : List (EntryOf I R I.Datum I.Pred)) → core.value.log ≡ seat.old.seen ++ more → seat.new ≡ given_back seat.old more }
{
    if core.log().len() == before {
        turn.unlock(seat, CoreInTurn { core });
    } else {
        turn.unlock_all(seat, CoreInTurn { core });
    }
}
