//! Taking the value.
ghost use Rattle.std.specs.Prelude.{◌≡◌, ℕ, [], ◌∷◌, Some, None, IfSome, IfNone};
ghost use Rattle.sg_turn.specs.declared.stage.Stage.TheVariants.{Outside, Drawn, Inside};
ghost use Rattle.sg_turn.specs.Entries.{Begins, told_by};
ghost use Rattle.sg_turn.specs.Turn.{IsSized, IsSame};

use crate::in_turn::{InTurn, Origin};
use crate::sleeping::{mark, sleep};
use crate::steps::{Draw, Look};
use crate::storied::Storied;
use crate::view::View;
use atomic_table::{Seat, Shared};
use std::hint;
use std::sync::Wait;

// How a thread waits for the lock.
//
// What costs is each change from one thread to another, and a thread that holds up others while it is not on a
// processor. So a thread draws no ticket while the lock is taken. It looks a few times, less and less often, and then
// sleeps until it is woken.
//
// What was tried, in turns in a time, as ratios to one thread (bench/turn, on 4 processors that other work kept busy
// too). A turn does nothing, or computes for 2 microseconds with 0.2 between two turns:
//                                                    nothing                 2 microseconds
//   threads                                          4      16     64        4      16     64
//   200 looks, then draw, and wake all who park      0.48   0.50   0.34      0.57   0.22   0.10
//   draw when free, 10 looks, count who sleeps       0.43   0.17   0.09      0.99   1.06   1.03
//   draw when free, 8 looks, mark that one sleeps    0.75   0.67   0.66      1.00   1.03   0.97
//   the same with 12 looks                           0.58   0.55   0.52      0.95   0.82   0.76
//
// With a count each turn wakes a thread while any is counted. Where the value is large and turns are of many lengths, as
// a core's are, 8 looks let threads sleep and be woken so often that four of them took a half longer than one; with
// 12 looks four took a fifth longer. The three words far apart in memory made no difference that could be told.

/// So many looks, each after twice the time of the one before, before a thread sleeps.
const ROUNDS: u32 = 12;

/// Draws a ticket once the lock is free, and takes the value as it is served.
pub(crate) fn take<V: Storied, R: Wait>(
    rt: &R,
    shared: &Shared<Option<V>, View<V::Entry, V::Root>, Origin<V>, InTurn<V>>,
    seat: &mut Seat<Option<V>, View<V::Entry, V::Root>>,
) -> V
    requires table { (seat.old.table_id ≡ shared.now.table_id) × IsSized shared.now.table_id }
    requires outside { (seat.old.me.0.stage ≡ Outside) × (seat.old.me.1 ≡ []) }
    ensures seat { IsSame seat.old seat.new }
    ensures view { (t : ℕ)
        × (seat.new.me ≡ (record seat.old.me.0 { stage = Inside t; seen = V.entries result }, (0, None) ∷ [])) }
    ensures begins { Begins seat.old.me.0.seen (V.entries result) }
    ensures own { told_by V.teller seat.old.me.0.number (V.entries result) ≡ seat.old.me.0.mine }
    ensures root { seat.old.me.0.root ≡ Some (V.root result) }
{
    let ticket = draw::<V, R>(rt, shared, seat);
    // The ticket was drawn as the one that is served, so the first look finds it.
    for _ in rt.forever() {
        let served = shared.load::<Look<V>>(seat, 1);
        if served == ticket {
            return shared.exchange(seat, 0, None).unwrap();
        }
    }
    unreachable!()
}

/// Draws a ticket once the lock is free, which is served at once.
fn draw<V: Storied, R: Wait>(
    rt: &R,
    shared: &Shared<Option<V>, View<V::Entry, V::Root>, Origin<V>, InTurn<V>>,
    seat: &mut Seat<Option<V>, View<V::Entry, V::Root>>,
) -> u64
    requires table { (seat.old.table_id ≡ shared.now.table_id) × IsSized shared.now.table_id }
    requires outside { (seat.old.me.0.stage ≡ Outside) × (seat.old.me.1 ≡ []) }
    ensures { IsSame seat.old seat.new × (seat.new.me ≡ (record seat.old.me.0 { stage = Drawn result }, [])) }
{
    if let Some(ticket) = draw_soon::<V>(shared, seat) {
        return ticket;
    }
    for _ in rt.forever() {
        mark::<V>(shared, seat);
        if let Some(ticket) = draw_free::<V>(shared, seat) {
            return ticket;
        }
        sleep::<V, R>(rt, shared);
        if let Some(ticket) = draw_soon::<V>(shared, seat) {
            mark::<V>(shared, seat);
            return ticket;
        }
    }
    unreachable!()
}

/// Draws a ticket if the lock is found free in a bounded number of looks, each after twice the time of the one before.
fn draw_soon<V: Storied>(
    shared: &Shared<Option<V>, View<V::Entry, V::Root>, Origin<V>, InTurn<V>>,
    seat: &mut Seat<Option<V>, View<V::Entry, V::Root>>,
) -> Option<u64>
    requires table { (seat.old.table_id ≡ shared.now.table_id) × IsSized shared.now.table_id }
    requires outside { seat.old.me.0.stage ≡ Outside }
    ensures seat { IsSame seat.old seat.new }
    ensures drawn { IfSome result (λ t. seat.new.me ≡ (record seat.old.me.0 { stage = Drawn t }, seat.old.me.1)) }
    ensures none { IfNone result (seat.new.me ≡ seat.old.me) }
{
    for round in 0..ROUNDS {
        if let Some(ticket) = draw_free::<V>(shared, seat) {
            return Some(ticket);
        }
        spin(1 << round);
    }
    None
}

/// Draws the ticket that is served where it is the next one, so that no ticket is out.
fn draw_free<V: Storied>(
    shared: &Shared<Option<V>, View<V::Entry, V::Root>, Origin<V>, InTurn<V>>,
    seat: &mut Seat<Option<V>, View<V::Entry, V::Root>>,
) -> Option<u64>
    requires table { (seat.old.table_id ≡ shared.now.table_id) × IsSized shared.now.table_id }
    requires outside { seat.old.me.0.stage ≡ Outside }
    ensures seat { IsSame seat.old seat.new }
    ensures drawn { IfSome result (λ t. seat.new.me ≡ (record seat.old.me.0 { stage = Drawn t }, seat.old.me.1)) }
    ensures none { IfNone result (seat.new.me ≡ seat.old.me) }
{
    let served = shared.peek(1);
    if shared.peek(0) != served {
        return None;
    }
    let next = shared.compare_exchange::<Draw>(seat, 0, served, served.wrapping_add(1));
    if next == served { Some(served) } else { None }
}

fn spin(pauses: u32) {
    for _ in 0..pauses {
        hint::spin_loop();
    }
}
