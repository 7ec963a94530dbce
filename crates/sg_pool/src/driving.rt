//! The three steps of a unit at a desk.

ghost use Rattle.std.specs.Prelude.{◌≡◌, ◌<◌, ◌^◌, ◌+◌, length, false, None, Option, IfOk, OnErr};
ghost use Rattle.sg_unit.specs.declared.reply.Reply.{Reply as ReplyOf};
ghost use Rattle.sg_pool.specs.declared.after.After.TheVariants.{IsStuck};
ghost use Rattle.sg_pool.specs.declared.doing.Doing.TheVariants.{Advances, Takes, Gives, HasEnded};
ghost use Rattle.sg_pool.specs.Driving.{IsDrivenAt, MetStuck, AddsOne, doing_after, doing_advanced, after_of};

use crate::after::After;
use crate::doing::Doing;
use crate::stepped::Stepped;
use sg_base::Instance;
use sg_unit::{Desk, Op, Reply, Seat, Unit};
use std::alloc::AllocError;
use std::sync::Wait;
use std::thread::Threads;

/// What comes after an operation that a unit gave.
fn next_of<I: Instance, R>(op: &Op<I, R>) -> Doing
    ensures { result ≡ doing_after op.now }
{
    match op {
        Op::Fresh { .. } => Doing::Gives,
        Op::AddEdge { .. } => Doing::Gives,
        Op::SetDatum { .. } => Doing::Gives,
        Op::CloseRow { .. } => Doing::Gives,
        Op::Ask(_) => Doing::Advances,
        Op::Advance => Doing::Advances,
        Op::Take => Doing::Gives,
        Op::End(_) => Doing::HasEnded,
    }
}

/// What comes after an advance.
fn next_advanced<I: Instance>(reply: &Reply<I>) -> Doing
    ensures { result ≡ doing_advanced reply.now }
{
    match reply {
        Reply::Ready => Doing::Takes,
        Reply::Moved => Doing::Advances,
        Reply::Suspended => Doing::Advances,
        Reply::Stuck => Doing::Advances,
        Reply::Made(_) => Doing::Advances,
        Reply::Done { .. } => Doing::Advances,
        Reply::Answer(_) => Doing::Advances,
    }
}

/// Whether a unit goes on after a reply.
fn told_by<I: Instance>(reply: &Reply<I>) -> After
    ensures { result ≡ after_of reply.now }
{
    match reply {
        Reply::Suspended => After::Waits,
        Reply::Stuck => After::IsStuck,
        Reply::Ready => After::Goes,
        Reply::Moved => After::Goes,
        Reply::Made(_) => After::Goes,
        Reply::Done { .. } => After::Goes,
        Reply::Answer(_) => After::Goes,
    }
}

/// Hands a unit that asks nothing the reply that waits for it, and applies what it gives next.
pub(crate) fn give<
    U: Unit,
    K: Desk<Inst = U::Inst, Outcome = U::Outcome>,
    Rt: Threads + Wait + Sync,
>(
    rt: &Rt,
    unit: &mut U,
    desk: &K,
    seat: &mut K::Place,
    last: &mut Option<Reply<U::Inst>>,
) -> Result<Stepped, AllocError>
    requires seat { K.sits desk.now seat.old × (K.Place.spent seat.old ≡ false) }
    requires driven { IsDrivenAt U.Inst.Instance U.Unit K.Place.Seat seat.old unit.old last.old Gives }
    ensures driven { IfOk result (λ s. IsDrivenAt U.Inst.Instance U.Unit K.Place.Seat seat.new unit.new last.new s.doing) }
    ensures stuck { IfOk result (λ s. s.after ≡ IsStuck → MetStuck (K.Place.mine seat.new)) }
    ensures met { IfOk result (λ _. MetStuck (K.Place.mine seat.old) → MetStuck (K.Place.mine seat.new)) }
    ensures longer { IfOk result (λ _. (length (K.Place.mine seat.new) ≡ length (K.Place.mine seat.old) + 1) × (length (K.Place.mine seat.new) < 2 ^ 63)) }
    ensures added { IfOk result (λ s. AddsOne (K.Place.mine seat.old) (K.Place.number seat.old) s.after (K.Place.mine seat.new)) }
    ensures err { OnErr result (K.Place.mine seat.new ≡ K.Place.mine seat.old) }
    ensures unspent { IfOk result (λ _. K.Place.spent seat.new ≡ false) }
    ensures seat { K.sits desk.now seat.new × (K.Place.number seat.new ≡ K.Place.number seat.old) }
    ensures fixed { (U.fixed unit.new ≡ U.fixed unit.old) × (U.number unit.new ≡ U.number unit.old) }
{
    let handed = last.take();
    let op = unit.next(handed)?;
    let asks = op.is_ask();
    let doing = next_of(&op);
    let reply = desk.apply(rt, seat, op)?;
    let after = told_by(&reply);
    if !asks {
        *last = Some(reply);
    }
    Ok(Stepped { doing, after })
}

/// Lets the ask of a unit go on.
pub(crate) fn advance<
    U: Unit,
    K: Desk<Inst = U::Inst, Outcome = U::Outcome>,
    Rt: Threads + Wait + Sync,
>(
    rt: &Rt,
    unit: &U,
    desk: &K,
    seat: &mut K::Place,
    last: &Option<Reply<U::Inst>>,
) -> Result<Stepped, AllocError>
    requires seat { K.sits desk.now seat.old × (K.Place.spent seat.old ≡ false) }
    requires driven { IsDrivenAt U.Inst.Instance U.Unit K.Place.Seat seat.old unit.now last.now Advances }
    ensures driven { IfOk result (λ s. IsDrivenAt U.Inst.Instance U.Unit K.Place.Seat seat.new unit.now last.now s.doing) }
    ensures stuck { IfOk result (λ s. s.after ≡ IsStuck → MetStuck (K.Place.mine seat.new)) }
    ensures met { IfOk result (λ _. MetStuck (K.Place.mine seat.old) → MetStuck (K.Place.mine seat.new)) }
    ensures longer { IfOk result (λ _. (length (K.Place.mine seat.new) ≡ length (K.Place.mine seat.old) + 1) × (length (K.Place.mine seat.new) < 2 ^ 63)) }
    ensures added { IfOk result (λ s. AddsOne (K.Place.mine seat.old) (K.Place.number seat.old) s.after (K.Place.mine seat.new)) }
    ensures err { OnErr result (K.Place.mine seat.new ≡ K.Place.mine seat.old) }
    ensures unspent { IfOk result (λ _. K.Place.spent seat.new ≡ false) }
    ensures seat { K.sits desk.now seat.new × (K.Place.number seat.new ≡ K.Place.number seat.old) }
{
    let reply = desk.apply(rt, seat, Op::Advance)?;
    let doing = next_advanced(&reply);
    let after = told_by(&reply);
    Ok(Stepped { doing, after })
}

/// Takes the answer of a unit's ask, which is handed to it next.
pub(crate) fn take<
    U: Unit,
    K: Desk<Inst = U::Inst, Outcome = U::Outcome>,
    Rt: Threads + Wait + Sync,
>(
    rt: &Rt,
    unit: &U,
    desk: &K,
    seat: &mut K::Place,
    last: &mut Option<Reply<U::Inst>>,
) -> Result<Stepped, AllocError>
    requires seat { K.sits desk.now seat.old × (K.Place.spent seat.old ≡ false) }
    requires driven { IsDrivenAt U.Inst.Instance U.Unit K.Place.Seat seat.old unit.now last.old Takes }
    ensures driven { IfOk result (λ s. IsDrivenAt U.Inst.Instance U.Unit K.Place.Seat seat.new unit.now last.new s.doing) }
    ensures stuck { IfOk result (λ s. s.after ≡ IsStuck → MetStuck (K.Place.mine seat.new)) }
    ensures met { IfOk result (λ _. MetStuck (K.Place.mine seat.old) → MetStuck (K.Place.mine seat.new)) }
    ensures longer { IfOk result (λ _. (length (K.Place.mine seat.new) ≡ length (K.Place.mine seat.old) + 1) × (length (K.Place.mine seat.new) < 2 ^ 63)) }
    ensures added { IfOk result (λ s. AddsOne (K.Place.mine seat.old) (K.Place.number seat.old) s.after (K.Place.mine seat.new)) }
    ensures err { OnErr result (K.Place.mine seat.new ≡ K.Place.mine seat.old) }
    ensures unspent { IfOk result (λ _. K.Place.spent seat.new ≡ false) }
    ensures seat { K.sits desk.now seat.new × (K.Place.number seat.new ≡ K.Place.number seat.old) }
{
    let reply = desk.apply(rt, seat, Op::Take)?;
    let after = told_by(&reply);
    *last = Some(reply);
    Ok(Stepped {
        doing: Doing::Gives,
        after,
    })
}
