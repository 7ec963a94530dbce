ghost use Rattle.std.specs.Prelude.{◌≡◌};

use crate::aside::Aside;
use crate::core_in_turn::CoreInTurn;
use sg_base::Instance;
use sg_turn::TurnSeat;
use std::marker::Model;

/// The seat of a unit at a broker, which one thread has at a time. Once nobody holds anything of the graph, it answers the
/// asks of its unit without a turn, and keeps these events until the unit's next turn.
///
/// Contracts see which broker it is of, its number, what the broker's run begins with, the events that it has seen, those of
/// its unit that it keeps, all those of its unit, and whether want of memory was met, after which it is of no more use.
#[derive(Drop)]
pub struct UnitSeat<I: Instance, R> {
    pub(crate) seat: TurnSeat<CoreInTurn<I, R>>,
    pub(crate) number: u32,
    pub(crate) spent: bool,
    pub(crate) aside: Aside<I, R>,
}

impl<I: Instance, R> Model for UnitSeat<I, R> {
    ghost use Rattle.std.specs.Prelude.{◌≡◌, ◌++◌, true, false, []};
    ghost use Rattle.sg_broker.specs.Aside.{IsAside};
    ghost use Rattle.sg_broker.specs.Broker.{SeatOf, root_of, IsTold};
    ghost use Rattle.sg_unit.specs.Unit.{setting_of};
    ghost use Rattle.sg_query.specs.Query.{coded_kind};
    ghost use Rattle.std.specs.Coded.{codes};

    ghost Value = { SeatOf I R I.Datum I.Pred };

    ghost coded = { Prim.hlevel (codes, coded_kind) };

    ghost view = { λ s. record {
      turn = s.seat.turn;
      number = s.number;
      opening = (root_of s.seat.root).opening;
      kinds = (root_of s.seat.root).kinds;
      seen = s.seat.seen;
      kept = s.aside.kept.events.items;
      mine = s.seat.mine ++ s.aside.kept.events.items;
      spent = s.spent;
    } };

    ghost invariant = { λ s. (s.seat.number ≡ s.number) × (s.seat.inside ≡ false) × (s.seat.kept ≡ []) × IsTold s.seat.root × (s.seat.spent ≡ true → s.spent ≡ true) × IsAside (setting_of I.wants I.same_datum (root_of s.seat.root).opening (root_of s.seat.root).kinds) s.seat.seen s.seat.mine s.number s.aside.sight s.aside.count s.aside.kept.events.items s.aside.kept.ask };
}

impl<I: Instance, R> UnitSeat<I, R> {
    /// The number of the seat's unit.
    pub fn number(&self) -> u32
        ensures { result ≡ self.now.number }
    {
        self.number
    }
}
