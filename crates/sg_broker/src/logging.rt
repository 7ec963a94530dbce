//! What is done in a turn.

ghost use Rattle.std.specs.Prelude.{◌≡◌, ◌++◌, ◌⊎◌, [], ℕ, ◌<◌, List, length, cond, IfOk, OnErr, All, nat_lt, not};
ghost use Rattle.sg_core.specs.declared.found_ask.FoundAsk.TheVariants.{Nothing};
ghost use Rattle.sg_core.specs.Ahead.{IsAheadOf};
ghost use Rattle.sg_core.specs.Beside.{KeepsAll, with_events};
ghost use Rattle.sg_core.specs.Core.{IsCore, MayDo, Applies, run};
ghost use Rattle.sg_unit.specs.Run.{IsFreeUnit};
ghost use Rattle.sg_broker.specs.Aside.{FirstOf, Gains, told_by};

use crate::aside::Aside;
use sg_base::Instance;
use sg_core::{Ahead, Core, Kept, Sight};
use sg_unit::{Op, Reply};
use std::alloc::AllocError;

/// What a seat has seen of the run: what it saw first, or what the core shares now.
fn seen_first<I: Instance, R: Drop>(
    old: Option<Sight<I>>,
    core: &mut Core<I, R>,
) -> Option<Sight<I>>
    ensures same { core.new ≡ core.old }
    ensures first { FirstOf I.wants I.same_datum core.old old result }
{
    match old {
        Some(sight) => Some(sight),
        None => core.share(),
    }
}

/// Gives back the memory of events that are no longer kept, where the operation ends the unit.
fn shrink<I: Instance, R: Drop>(kept: &mut Kept<I, R>, ends: bool)
    ensures items { kept.new.events.items ≡ kept.old.events.items }
    ensures ask { kept.new.ask ≡ kept.old.ask }
{
    if ends {
        kept.events.shrink_to_fit();
    }
}

/// Applies an operation of a unit behind the events that were kept, and looks at what the run holds then. An end gives back
/// the memory of the events that were kept.
pub(crate) fn step<I: Instance, R: Drop>(
    core: &mut Core<I, R>,
    unit: u32,
    aside: &mut Aside<I, R>,
    op: Op<I, R>,
    ahead: Option<Ahead<I>>,
) -> Result<Reply<I>, AllocError>
    requires free { (aside.old.kept.events.items ≡ []) ⊎ IsFreeUnit (run I.wants I.same_datum core.old) unit }
    requires kept { KeepsAll I.wants I.same_datum core.old.kinds (run I.wants I.same_datum core.old).held unit Nothing aside.old.kept.events.items aside.old.kept.ask }
    requires may { MayDo I.wants I.same_datum (with_events core.old aside.old.kept.events.items) unit op }
    requires ahead { IsAheadOf I.wants I.same_datum core.old.kinds (run I.wants I.same_datum (with_events core.old aside.old.kept.events.items)).held op ahead }
    ensures gains { Gains core.old core.new unit aside.old.kept.events.items aside.old.kept.ask (told_by unit op result) aside.new.kept.events.items aside.new.kept.ask }
    ensures none { IfOk result (λ _. aside.new.kept.events.items ≡ []) }
    ensures err { OnErr result (aside.new.kept.events.items ≡ aside.old.kept.events.items) }
    ensures core { IsCore I.wants I.same_datum core.new }
    ensures sight { FirstOf I.wants I.same_datum core.new aside.old.sight aside.new.sight }
    ensures count { aside.new.count ≡ length core.new.log }
{
    let ends = matches!(&op, Op::End(_));
    let reply = core.apply_behind(unit, &mut aside.kept, op, ahead);
    shrink(&mut aside.kept, ends);
    aside.sight = seen_first(aside.sight.take(), core);
    aside.count = core.log().len();
    reply
}

/// Hands in the events that were kept.
pub(crate) fn hand_in<I: Instance, R: Drop>(
    core: &mut Core<I, R>,
    unit: u32,
    aside: &mut Aside<I, R>,
) -> Result<(), AllocError>
    requires free { (aside.old.kept.events.items ≡ []) ⊎ IsFreeUnit (run I.wants I.same_datum core.old) unit }
    requires kept { KeepsAll I.wants I.same_datum core.old.kinds (run I.wants I.same_datum core.old).held unit Nothing aside.old.kept.events.items aside.old.kept.ask }
    ensures gains { Gains core.old core.new unit aside.old.kept.events.items aside.old.kept.ask [] aside.new.kept.events.items aside.new.kept.ask }
    ensures none { IfOk result (λ _. aside.new.kept.events.items ≡ []) }
    ensures core { IsCore I.wants I.same_datum core.new }
    ensures sight { FirstOf I.wants I.same_datum core.new aside.old.sight aside.new.sight }
    ensures count { aside.new.count ≡ length core.new.log }
{
    let done = core.apply_kept(unit, &mut aside.kept);
    aside.sight = seen_first(aside.sight.take(), core);
    aside.count = core.log().len();
    done
}
