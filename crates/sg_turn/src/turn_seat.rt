//! A place at the lock.
use crate::storied::Storied;
use crate::view::View;
use atomic_table::Seat;
use std::marker::Model;

/// A place at a lock, which one thread has at a time. It takes no memory.
///
/// Contracts see which lock it is of, its number, the lock's root, the entries that it has seen, those that it added
/// (`mine`), those of the seats that it took back (`kept`), whether it has the value (`inside`), and whether it has
/// had its last turn (`spent`).
#[derive(Drop)]
pub struct TurnSeat<V: Storied> {
    pub(crate) seat: Seat<Option<V>, View<V::Entry, V::Root>>,
}

impl<V: Storied> Model for TurnSeat<V> {
    ghost use Rattle.sg_turn.specs.TurnSeat.{Known, known, Rests};

    ghost Value = { Known V.Entry V.Root };

    ghost view = { λ s. known s.seat.table_id s.seat.me.0 };

    ghost invariant = { λ s. Rests s.seat.me };
}
