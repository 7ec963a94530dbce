//! The rule of the lock's table.
ghost use Rattle.sg_turn.specs.View.{first_view};
ghost use Rattle.sg_turn.specs.Rule.{IsInTurn};

use crate::storied::Storied;
use crate::view::View;
use atomic_table::TableRule;
use std::marker::PhantomData;
use std::snapshot::Snapshot;

/// The value that the lock was made with, and the number of seats.
#[derive(Drop)]
pub(crate) struct Origin<V> {
    pub(crate) value: Snapshot<V>,
    pub(crate) seats: u32,
}

/// The value is taken in turns. A table under this rule has the words `next`, `serving` and `asleep`, and one slot.
pub(crate) struct InTurn<V> {
    marker: PhantomData<V>,
}

impl<V: Storied> TableRule<Option<V>, View<V::Entry, V::Root>, Origin<V>> for InTurn<V> {
    ghost holds = { λ key. IsInTurn V.entries V.root V.teller (V.root key.value.value) key.seats };

    ghost first = { λ key. first_view (V.root key.value.value) };
}
