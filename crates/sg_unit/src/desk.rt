ghost use Rattle.std.specs.Prelude.{◌≡◌, ◌<◌, ◌^◌, ◌++◌, ◌∷◌, [], true, false, length, IfOk, OnErr};
ghost use Rattle.sg_unit.specs.Own.{MayBy};
ghost use Rattle.sg_unit.specs.Unit.{setting_at, SeatCanReply};

use crate::op::Op;
use crate::reply::Reply;
use crate::seat::Seat;
use sg_base::Instance;
use std::alloc::AllocError;
use std::sync::Wait;
use std::thread::Threads;

/// Where units have their operations applied, each through a seat of its own.
pub trait Desk {
    /// What the graph's data and the queries' predicates are.
    type Inst: Instance;

    /// What a unit comes to.
    type Outcome: Drop;

    /// The place of a unit.
    type Place: Seat<Inst = Self::Inst, Outcome = Self::Outcome>;

    /// The seat is one of this desk.
    ghost sits: { Self → Self.Place → Type 0 };

    /// Applies one operation of the seat's unit, and tells its reply. After want of memory the unit's entries are as they were,
    /// and the seat is spent. There are never 2^63 entries, so that a caller can count its steps. May wait for its turn.
    fn apply<Rt: Threads + Wait + Sync>(
        &self,
        rt: &Rt,
        seat: &mut Self::Place,
        op: Op<Self::Inst, Self::Outcome>,
    ) -> Result<Reply<Self::Inst>, AllocError>
        requires own { sits self.now seat.old × (Self.Place.spent seat.old ≡ false) }
        requires may { MayBy (setting_at Self.Inst.wants Self.Inst.same_datum Self.Place.opening Self.Place.kinds seat.old) (Self.Place.mine seat.old) (Self.Place.number seat.old) op }
        ensures added { IfOk result (λ reply. Self.Place.mine seat.new ≡ Self.Place.mine seat.old ++ (record { unit = Self.Place.number seat.old; op = op; reply = reply }) ∷ []) }
        ensures reply { IfOk result (SeatCanReply Self.Inst.wants Self.Inst.same_datum Self.Place.opening Self.Place.kinds Self.Place.mine Self.Place.number seat.old op) }
        ensures short { IfOk result (λ _. length (Self.Place.mine seat.new) < 2 ^ 63) }
        ensures unspent { IfOk result (λ _. Self.Place.spent seat.new ≡ false) }
        ensures err { OnErr result ((Self.Place.mine seat.new ≡ Self.Place.mine seat.old) × (Self.Place.spent seat.new ≡ true)) }
        ensures seat { sits self.now seat.new × (Self.Place.number seat.new ≡ Self.Place.number seat.old) }
        ensures run { (Self.Place.opening seat.new ≡ Self.Place.opening seat.old) × (Self.Place.kinds seat.new ≡ Self.Place.kinds seat.old) };
}
