//! Sleeping while the lock is taken, and waking who sleeps.
//!
//! A thread sleeps on the word `asleep`, and only while that is 1. No wake-up is lost:
//!
//! - A thread makes it 1 before it looks whether the lock is free. So after each time that it becomes 1 the lock is
//!   given back once more: by that thread, if it finds the lock free, and else by the one that has it.
//! - Who gives the lock back makes it 0 where it is 1, and then wakes one thread. So one that sleeps is woken in time,
//!   or another is, and one that is about to sleep finds it 0, and does not.
//! - A thread that was woken makes it 1 again before it sleeps again or has the value, so after it the next is woken.
//!
//! While no thread comes back to sleep, the lock is given back without a wake.
ghost use Rattle.std.specs.Prelude.{◌≡◌};
ghost use Rattle.sg_turn.specs.Turn.{IsSized, IsSame};

use crate::in_turn::{InTurn, Origin};
use crate::steps::Mark;
use crate::storied::Storied;
use crate::view::View;
use atomic_table::{Seat, Shared};
use std::sync::Wait;

/// Tells who gives the lock back that a thread may be asleep.
pub(crate) fn mark<V: Storied>(
    shared: &Shared<Option<V>, View<V::Entry, V::Root>, Origin<V>, InTurn<V>>,
    seat: &mut Seat<Option<V>, View<V::Entry, V::Root>>,
)
    requires { (seat.old.table_id ≡ shared.now.table_id) × IsSized shared.now.table_id }
    ensures { IsSame seat.old seat.new × (seat.new.me ≡ seat.old.me) }
{
    shared.store::<Mark>(seat, 2, 1);
}

/// Sleeps until a wake, while a thread may be asleep.
pub(crate) fn sleep<V: Storied, R: Wait>(
    rt: &R,
    shared: &Shared<Option<V>, View<V::Entry, V::Root>, Origin<V>, InTurn<V>>,
)
    requires { IsSized shared.now.table_id }
{
    shared.park(rt, 2, 1);
}

/// Wakes one thread, where any may be asleep. The lock was given back.
pub(crate) fn wake_one<V: Storied>(
    shared: &Shared<Option<V>, View<V::Entry, V::Root>, Origin<V>, InTurn<V>>,
    seat: &mut Seat<Option<V>, View<V::Entry, V::Root>>,
)
    requires { (seat.old.table_id ≡ shared.now.table_id) × IsSized shared.now.table_id }
    ensures { IsSame seat.old seat.new × (seat.new.me ≡ seat.old.me) }
{
    if shared.peek(2) == 0 {
        return;
    }
    shared.store::<Mark>(seat, 2, 0);
    shared.wake_one(2);
}
