ghost use Rattle.std.specs.Prelude.{◌≡◌, ◌<◌, ◌≤◌, ℕ, [], false, length, IfOk, IsOk, OnErr, All};
ghost use Rattle.sg_broker.specs.Broker.{IsAt, Adds, Spends, new_seats};
ghost use Rattle.sg_core.specs.Core.{IsCore, entry};
ghost use Rattle.sg_unit.specs.Own.{MayBy, CanReply, own};
ghost use Rattle.sg_unit.specs.Run.{run_of};
ghost use Rattle.sg_unit.specs.Unit.{setting_of};

use crate::closing::gather_all;
use crate::core_in_turn::CoreInTurn;
use crate::in_turn::apply_in_turn;
use crate::keeping::keep;
use crate::seating::seat_all;
use crate::step::Step;
use crate::unit_seat::UnitSeat;
use sg_base::Instance;
use sg_core::Core;
use sg_turn::Turn;
use sg_unit::{Op, Reply};
use std::alloc::{AllocError, Global};
use std::marker::Model;
use std::sync::Wait;

/// A core behind a lock, at which each unit has a seat. Threads share it by reference.
///
/// Contracts see which broker it is, the held graph that its run begins with, and the kinds of its queries.
#[derive(Drop)]
pub struct Broker<I: Instance, R> {
    turn: Turn<CoreInTurn<I, R>>,
}

impl<I: Instance, R> Model for Broker<I, R> {
    ghost use Rattle.std.specs.Prelude.{◌≡◌, length};
    ghost use Rattle.sg_broker.specs.Broker.{BrokerOf, begun};
    ghost use Rattle.sg_query.specs.Query.{coded_kind};
    ghost use Rattle.std.specs.Coded.{codes};

    ghost Value = { BrokerOf I.Datum };

    ghost coded = { Prim.hlevel (codes, coded_kind) };

    ghost view = { λ b. record { turn = b.turn.turn; opening = b.turn.root.opening; kinds = b.turn.root.kinds } };

    ghost invariant = { λ b. (b.turn.seats ≡ length b.turn.root.opening.made) × (b.turn.root ≡ begun b.turn.root.opening b.turn.root.kinds) };
}

impl<I: Instance, R: Drop> Broker<I, R> {
    /// A broker of a core with no event yet, and a seat for each unit, in the order of their numbers. The core is moved to the
    /// heap, where it stays until the broker is closed. Want of memory drops the core.
    ///
    /// Its cost grows with the number of units.
    pub fn open(
        alloc: Global,
        core: Core<I, R>,
    ) -> Result<(Broker<I, R>, Vec<UnitSeat<I, R>>), AllocError>
        requires opens { core.log ≡ [] }
        requires units { 0 < length core.opening.made }
        ensures begins { IfOk result (λ r. (r.0.opening ≡ core.opening) × (r.0.kinds ≡ core.kinds)) }
        ensures seats { IfOk result (λ r. r.1.items ≡ new_seats r.0 (length core.opening.made)) }
    {
        let units = core.units();
        let places = Vec::with_capacity(alloc, units as usize)?;
        let core = Box::new(alloc, core)?;
        let (turn, seats) = Turn::new(alloc, CoreInTurn { core }, units)?;
        let places = seat_all(alloc, &turn, seats, places, units);
        Ok((Broker { turn }, places))
    }

    /// Applies one operation of the seat's unit. Once the seat has seen that nobody holds anything of the graph, an ask that is
    /// answered there, its advance and its take need no turn, and the seat keeps these events. Any other operation waits for the
    /// seat's turn, in which the events that the seat kept go into the log before its own, behind all that the seat had seen.
    /// After want of memory nothing of the unit's was added to the log, the seat keeps what it kept, and it is spent.
    ///
    /// Costs what the operation costs (`Core::apply`), which others wait for, moving the events that were kept, and a turn
    /// (`Turn::lock`); without a turn a search and a place for its events. The core is changed where it is: only a pointer to
    /// it changes hands.
    pub fn apply<Rt: Wait>(
        &self,
        rt: &Rt,
        seat: &mut UnitSeat<I, R>,
        op: Op<I, R>,
    ) -> Result<Reply<I>, AllocError>
        requires own { IsAt self.now seat.old × (seat.old.spent ≡ false) }
        requires may { MayBy (setting_of I.wants I.same_datum seat.old.opening seat.old.kinds) seat.old.mine seat.old.number op }
        ensures ok { IfOk result (λ y. Adds (setting_of I.wants I.same_datum seat.old.opening seat.old.kinds) seat.old (entry seat.old.number op y) seat.new) }
        ensures reply { IfOk result (CanReply (run_of (setting_of I.wants I.same_datum seat.old.opening seat.old.kinds) seat.old.mine) seat.old.number op) }
        ensures err { OnErr result (Spends seat.old seat.new) }
        ensures seat { IsAt self.now seat.new × (seat.new.number ≡ seat.old.number) }
    {
        match keep(
            &seat.aside.sight,
            seat.aside.count,
            &mut seat.aside.kept,
            seat.number,
            op,
        ) {
            Step::Told(reply) => Ok(reply),
            Step::Turn(op, ahead) => apply_in_turn(&self.turn, rt, seat, op, ahead),
        }
    }

    /// The core, once all seats are back, with the events that they kept: a seat that keeps some has a last turn. Its log is a
    /// legal run from the opening, and the events of each unit are those of its seat. Takes no memory where no seat keeps an
    /// event, as where each unit has ended or waits. Want of memory drops the core, and so does a seat that is spent and keeps
    /// events.
    ///
    /// Its cost grows with the number of units and of the events that were kept.
    pub fn close<Rt: Wait>(
        self,
        rt: &Rt,
        seats: Vec<UnitSeat<I, R>>,
    ) -> Result<Core<I, R>, AllocError>
        requires count { (length seats.items ≡ length self.opening.made) × (0 < length seats.items) }
        requires own { All (λ s. IsAt self s) seats.items }
        ensures core { IfOk result (IsCore I.wants I.same_datum) }
        ensures begins { IfOk result (λ c. (c.opening ≡ self.opening) × (c.kinds ≡ self.kinds)) }
        ensures own { IfOk result (λ c. All (λ s. own s.number c.log ≡ s.mine) seats.items) }
        ensures others { IfOk result (λ c. (n : ℕ) → length self.opening.made ≤ n → own n c.log ≡ []) }
        ensures full { All (λ s. s.kept ≡ []) seats.items → IsOk result }
    {
        let mut left = seats;
        let Some(first) = left.pop() else {
            unreachable!()
        };
        let Broker { turn } = self;
        let all = gather_all(&turn, rt, first, left)?;
        let CoreInTurn { core } = turn.close_with(all);
        let core = Box::into_inner(core);
        let _log = core.log();
        Ok(core)
    }
}
