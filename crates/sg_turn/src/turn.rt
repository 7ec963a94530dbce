//! The lock.
ghost use Rattle.std.specs.Prelude.{◌≡◌, ◌⊎◌, ◌≤◌, ◌+◌, ◌<◌, ◌++◌, ℕ, List, length, true, false, [], ◌∷◌, IfOk, All};
ghost use Rattle.sg_turn.specs.Entries.{Begins, told_by};
ghost use Rattle.sg_turn.specs.Turn.{IsOf, fresh_seats};

use crate::dealing::deal;
use crate::gathering::gather_all;
use crate::giving::give;
use crate::in_turn::{InTurn, Origin};
use crate::steps::Gather;
use crate::storied::Storied;
use crate::taking::take;
use crate::turn_seat::TurnSeat;
use crate::view::View;
use atomic_table::Table;
use std::alloc::{AllocError, Global};
use std::marker::Model;
use std::snapshot::Snapshot;
use std::sync::Wait;

/// A lock that is taken in turns. A seat draws a ticket once the lock is free, and has the value while its ticket is served.
///
/// Contracts see which lock it is, the root of its value, and how many seats it has. Threads share it by reference.
#[derive(Drop)]
pub struct Turn<V: Storied> {
    table: Table<Option<V>, View<V::Entry, V::Root>, Origin<V>, InTurn<V>, Global>,
}

impl<V: Storied> Model for Turn<V> {
    ghost use Rattle.std.specs.Prelude.{◌<◌};
    ghost use Rattle.sg_turn.specs.Turn.{Lock, IsSized};

    ghost Value = { Lock V.Root };

    ghost view = { λ t. record {
      turn = t.table.shared.table_id;
      root = V.root t.table.shared.key.value.value;
      seats = t.table.shared.key.seats;
    } };

    ghost invariant = { λ t. IsSized t.table.shared.table_id × (0 < t.table.shared.key.seats) };
}

impl<V: Storied> Turn<V> {
    /// A lock with this value, and its seats, numbered from 0 in the order of the list. Want of memory drops the value.
    ///
    /// Its cost grows with the number of seats.
    pub fn new(
        alloc: Global,
        value: V,
        seats: u32,
    ) -> Result<(Turn<V>, Vec<TurnSeat<V>>), AllocError>
    where
        V: Drop,
        requires seats { 0 < seats }
        requires empty { V.entries value ≡ [] }
        ensures lock { IfOk result (λ r. (r.0.root ≡ V.root value) × (r.0.seats ≡ seats)) }
        ensures seats { IfOk result (λ r. r.1.items ≡ fresh_seats r.0.turn r.0.root seats) }
    {
        let all = Vec::with_capacity(alloc, seats as usize)?;
        let mut slots = Vec::with_capacity(alloc, 1)?;
        let origin = Origin {
            value: Snapshot::of(&value),
            seats,
        };
        slots.push_reserved(Some(value));
        match Table::new(alloc, &[0, 0, 0], slots, &origin) {
            Ok(made) => {
                let (table, first) = made;
                let all = deal::<V>(&table.shared, first, seats, all);
                Ok((Turn { table }, all))
            }
            Err(_) => Err(AllocError),
        }
    }

    /// Waits for the seat's turn, and takes the value. It takes no memory.
    ///
    /// Without another thread at the lock it is a few atomic steps. It may wait for ever where a thread keeps the value,
    /// or where others come first each time: those that wait keep no order. A thread that waits long sleeps.
    pub fn lock<R: Wait>(&self, rt: &R, seat: &mut TurnSeat<V>) -> V
        requires own { IsOf self.now seat.old }
        requires outside { (seat.old.inside ≡ false) × (seat.old.spent ≡ false) }
        ensures begins { Begins seat.old.seen (V.entries result) }
        ensures own { told_by V.teller seat.old.number (V.entries result) ≡ seat.old.mine }
        ensures root { V.root result ≡ self.now.root }
        ensures seat { seat.new ≡ record seat.old { seen = V.entries result; inside = true } }
    {
        take::<V, R>(rt, &self.table.shared, &mut seat.seat)
    }

    /// Gives the value back, as it was or with one entry more, which names the seat. A seat that adds nothing is spent.
    ///
    /// It takes no memory, and a few atomic steps.
    pub fn unlock(&self, seat: &mut TurnSeat<V>, value: V)
        requires own { IsOf self.now seat.old }
        requires inside { seat.old.inside ≡ true }
        requires root { V.root value ≡ self.now.root }
        requires entries { (V.entries value ≡ seat.old.seen)
            ⊎ ((e : V.Entry) × (V.entries value ≡ seat.old.seen ++ e ∷ []) × (V.teller e ≡ seat.old.number)) }
        ensures spent { V.entries value ≡ seat.old.seen
            → seat.new ≡ record seat.old { inside = false; spent = true } }
        ensures added { (e : V.Entry) → V.entries value ≡ seat.old.seen ++ e ∷ []
            → seat.new ≡ record seat.old { seen = V.entries value; mine = seat.old.mine ++ e ∷ []; inside = false } }
    {
        give::<V>(&self.table.shared, &mut seat.seat, value);
    }

    /// Gives the value back with the entries as they were and new ones behind them, at least one, which all name the seat.
    /// A turn that may add none gives it back by `unlock`.
    ///
    /// It takes no memory, and a few atomic steps, however many entries are new.
    pub fn unlock_all(&self, seat: &mut TurnSeat<V>, value: V)
        requires own { IsOf self.now seat.old }
        requires inside { seat.old.inside ≡ true }
        requires root { V.root value ≡ self.now.root }
        requires entries { (more : List V.Entry) × (0 < length more) × (V.entries value ≡ seat.old.seen ++ more)
            × All (λ e. V.teller e ≡ seat.old.number) more }
        ensures { (more : List V.Entry) → V.entries value ≡ seat.old.seen ++ more
            → seat.new ≡ record seat.old { seen = V.entries value; mine = seat.old.mine ++ more; inside = false } }
    {
        give::<V>(&self.table.shared, &mut seat.seat, value);
    }

    /// The value, once all seats are back. It takes no memory.
    ///
    /// Its cost grows with the number of seats.
    pub fn close(self, seats: Vec<TurnSeat<V>>) -> V
        requires count { length seats.items ≡ self.seats }
        requires own { All (λ s. IsOf self s × (s.inside ≡ false) × (s.kept ≡ [])) seats.items }
        ensures own { All (λ s. told_by V.teller s.number (V.entries result) ≡ s.mine) seats.items }
        ensures others { (n : ℕ) → self.seats ≤ n → told_by V.teller n (V.entries result) ≡ [] }
        ensures root { V.root result ≡ self.root }
    {
        let mut seats = seats;
        let Some(first) = seats.pop() else {
            unreachable!()
        };
        let Turn { table } = self;
        let gatherer = gather_all::<V>(&table.shared, first, seats);
        let mut closed = table.close_with(gatherer);
        let value = closed.take(0);
        closed.free();
        value.unwrap()
    }

    /// Takes another seat back into this one, which keeps its number and its entries. It takes no memory.
    pub fn gather(&self, seat: &mut TurnSeat<V>, other: TurnSeat<V>)
        requires own { IsOf self.now seat.old × IsOf self.now other }
        requires outside { (seat.old.inside ≡ false) × (other.inside ≡ false) }
        ensures { seat.new
            ≡ record seat.old { kept = (other.number, other.mine) ∷ seat.old.kept ++ other.kept } }
    {
        let TurnSeat { seat: inner } = other;
        self.table.shared.join_seat::<Gather>(&mut seat.seat, inner);
    }

    /// The value, once this seat took all the others back. It takes no memory.
    pub fn close_with(self, seat: TurnSeat<V>) -> V
        requires own { IsOf self seat × (seat.inside ≡ false) }
        requires all { length seat.kept + 1 ≡ self.seats }
        ensures own { told_by V.teller seat.number (V.entries result) ≡ seat.mine }
        ensures kept { All (λ p. told_by V.teller p.0 (V.entries result) ≡ p.1) seat.kept }
        ensures others { (n : ℕ) → self.seats ≤ n → told_by V.teller n (V.entries result) ≡ [] }
        ensures root { V.root result ≡ self.root }
    {
        let TurnSeat { seat: inner } = seat;
        let Turn { table } = self;
        let mut closed = table.close_with(inner);
        let value = closed.take(0);
        closed.free();
        value.unwrap()
    }
}
