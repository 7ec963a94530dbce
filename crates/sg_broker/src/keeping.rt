//! Operations that a seat answers without a turn.

ghost use Rattle.std.specs.Prelude.{◌≡◌, ◌<◌, ◌+◌, ◌^◌, Some, IsTrue, length};
ghost use Rattle.sg_unit.specs.declared.op.Op.TheVariants.{Ask as AskOf, Advance as AdvanceOf, Take as TakeOf};
ghost use Rattle.sg_broker.specs.Aside.{HasKindOf, Comes, HasRoom};

use crate::step::Step;
use sg_base::Instance;
use sg_core::{Ahead, Kept, Sight};
use sg_query::Query;
use sg_unit::{Entry, Op, Reply};

/// How many events a seat has seen at most while it keeps further ones.
const MOST_SEEN: usize = 1 << 62;

/// How many events a seat keeps at most.
const MOST_KEPT: usize = 1 << 16;

/// Whether a seat that has seen so many events keeps one more.
fn has_room<I: Instance, R>(count: usize, events: &[Entry<I, R>]) -> bool
    ensures { IsTrue result → count + length events.now + 1 < 2 ^ 63 }
{
    count < MOST_SEEN && events.len() < MOST_KEPT
}

/// Answers the ask of a query, where its answer is found in what was seen.
fn keep_ask<I: Instance, R: Drop>(
    sight: &Sight<I>,
    kept: &mut Kept<I, R>,
    unit: u32,
    query: Query<I::Pred>,
) -> Step<I, R>
    requires kind { query.kind < length sight.now.kinds }
    ensures { Comes I.wants I.same_datum (Some sight.now) unit (AskOf query) kept.old.events.items kept.old.ask kept.new.events.items kept.new.ask result }
{
    if !kept.asks_nothing() {
        return Step::Turn(Op::Ask(query), None);
    }
    match sight.search(&query) {
        Some(Ahead::Found(answer)) => match kept.keep_ask(unit, query, answer) {
            None => Step::Told(Reply::Moved),
            Some((query, answer)) => Step::Turn(Op::Ask(query), Some(Ahead::Found(answer))),
        },
        Some(Ahead::Open(search)) => Step::Turn(Op::Ask(query), Some(Ahead::Open(search))),
        None => Step::Turn(Op::Ask(query), None),
    }
}

/// Answers an advance, where the answer was found in what was seen.
fn keep_advance<I: Instance, R: Drop>(
    sight: &Sight<I>,
    kept: &mut Kept<I, R>,
    unit: u32,
) -> Step<I, R>
    ensures { Comes I.wants I.same_datum (Some sight.now) unit AdvanceOf kept.old.events.items kept.old.ask kept.new.events.items kept.new.ask result }
{
    if kept.keep_advance(unit) {
        Step::Told(Reply::Ready)
    } else {
        Step::Turn(Op::Advance, None)
    }
}

/// Answers a take, where the answer was found in what was seen.
fn keep_take<I: Instance, R: Drop>(sight: &Sight<I>, kept: &mut Kept<I, R>, unit: u32) -> Step<I, R>
    ensures { Comes I.wants I.same_datum (Some sight.now) unit TakeOf kept.old.events.items kept.old.ask kept.new.events.items kept.new.ask result }
{
    match kept.keep_take(unit) {
        Some(answer) => Step::Told(Reply::Answer(answer)),
        None => Step::Turn(Op::Take, None),
    }
}

/// Answers an operation of a unit, where what was seen of the run tells the answer, and keeps the event. Costs a search, where
/// it is an ask.
pub(crate) fn keep<I: Instance, R: Drop>(
    sight: &Option<Sight<I>>,
    count: usize,
    kept: &mut Kept<I, R>,
    unit: u32,
    op: Op<I, R>,
) -> Step<I, R>
    requires kind { HasKindOf sight.now op }
    ensures comes { Comes I.wants I.same_datum sight.now unit op kept.old.events.items kept.old.ask kept.new.events.items kept.new.ask result }
    ensures room { HasRoom count kept.old.events.items result }
{
    let Some(sight) = sight else {
        return Step::Turn(op, None);
    };
    if !has_room(count, &kept.events) {
        return Step::Turn(op, None);
    }
    match op {
        Op::Ask(query) => keep_ask(sight, kept, unit, query),
        Op::Advance => keep_advance(sight, kept, unit),
        Op::Take => keep_take(sight, kept, unit),
        other => Step::Turn(other, None),
    }
}
