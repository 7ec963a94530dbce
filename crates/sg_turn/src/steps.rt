//! The kinds of atomic step that change what a seat knows. `specs/Steps.antt` has what each does.
ghost use Rattle.sg_turn.specs.View.{former_maker, new_maker, gathering_view, joined_view};
ghost use Rattle.sg_turn.specs.Steps.{Draws, Looks, Serves, Marks};

use crate::storied::Storied;
use crate::view::View;
use atomic_table::{Join, Play, Split};
use std::marker::PhantomData;

/// A seat is made.
pub(crate) struct Deal;

impl<E, R> Split<View<E, R>> for Deal {
    ghost left = { former_maker };

    ghost right = { new_maker };
}

/// A seat is taken back.
pub(crate) struct Gather;

impl<E, R> Join<View<E, R>> for Gather {
    ghost both = { gathering_view };

    ghost spent = { joined_view };
}

/// A ticket is drawn, if it is the next one.
pub(crate) struct Draw;

impl<S, E, R> Play<S, View<E, R>> for Draw {
    ghost then = { Draws };
}

/// It is marked whether a thread may be asleep.
pub(crate) struct Mark;

impl<S, E, R> Play<S, View<E, R>> for Mark {
    ghost then = { Marks };
}

/// A seat looks at `serving`.
pub(crate) struct Look<V> {
    marker: PhantomData<V>,
}

impl<V: Storied> Play<Option<V>, View<V::Entry, V::Root>> for Look<V> {
    ghost then = { Looks V.entries V.root V.teller };
}

/// `serving` moves on by one.
pub(crate) struct Serve<V> {
    marker: PhantomData<V>,
}

impl<V: Storied> Play<Option<V>, View<V::Entry, V::Root>> for Serve<V> {
    ghost then = { Serves V.entries };
}
