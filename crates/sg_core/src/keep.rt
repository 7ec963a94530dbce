//! The held graph of a run, which is shared from the time on at which nobody holds anything of it.

ghost use Rattle.std.specs.Prelude.{◌≡◌, ◌<◌, ◌+◌, ◌^◌, Some, None, length, slice_index, ◌↔◌, IsTrue, IfSome, IfOk, OnOk, OnErr};
ghost use Rattle.std.specs.Arc.{arc_value};
ghost use Rattle.sg_base.specs.Graph.{HasScope};
ghost use Rattle.sg_base.specs.State.{IsOpen};
ghost use Rattle.sg_state.specs.Held.{HoldsRow, state_of, HoldsDatum, next_scope, with_fresh, with_edge, with_datum, without_row, without_unit};

use crate::idle::is_idle;
use crate::watch::Watch;
use sg_base::{Graph, Instance, Label, LabelSet, Scope};
use sg_state::Held;
use std::alloc::{AllocError, Global};
use std::marker::Model;
use std::sync::Arc;

/// A held graph, which is changed in place while some unit holds a part of it, and may be shared from then on. Contracts see
/// the held graph.
///
/// The graph of a run in which some unit made a scope is never shared, since a later scope could not be added to it.
#[derive(Drop)]
pub(crate) struct Keep<I: Instance> {
    open: Option<Held<I>>,
    shared: Option<Arc<Held<I>, Global>>,
    made: bool,
    watch: Watch,
}

impl<I: Instance> Model for Keep<I> {
    ghost use Rattle.sg_state.specs.Held.{HeldOf};
    ghost use Rattle.sg_core.specs.Keep.{held_in, IsKeptIn};

    ghost Value = { HeldOf I.Datum };

    ghost view = { λ k. held_in k.open k.shared };

    ghost invariant = { λ k. IsKeptIn k.open k.shared };
}

impl<I: Instance> Keep<I> {
    /// The held graph, which is not shared yet.
    pub(crate) fn new(held: Held<I>) -> Keep<I>
        ensures { result ≡ held }
    {
        Keep {
            open: Some(held),
            shared: None,
            made: false,
            watch: Watch::new(),
        }
    }

    /// The held graph.
    pub(crate) fn read(&self) -> &Held<I>
        ensures { result.now ≡ self.now }
    {
        match &self.open {
            Some(held) => held,
            None => match &self.shared {
                Some(held) => &**held,
                None => unreachable!(),
            },
        }
    }

    /// Shares the held graph, once nobody holds anything and as long as no unit has made a scope. Costs a count where it was
    /// shared before; else look-ups at the scope at which a holder was seen last, and at all scopes where nobody holds that
    /// one any more.
    pub(crate) fn share(&mut self, alloc: Global) -> Option<Arc<Held<I>, Global>>
        ensures same { self.new ≡ self.old }
        ensures shared { IfSome result (λ a. arc_value a ≡ self.old) }
    {
        if self.made {
            return None;
        }
        if let Some(held) = self.open.take() {
            if self.watch.sees_holder(alloc, &held) || !is_idle(alloc, &held) {
                self.open = Some(held);
                return None;
            }
            match Arc::new(alloc, held) {
                Ok(shared) => self.shared = Some(shared),
                Err(failed) => {
                    self.open = Some(failed.value);
                    return None;
                }
            }
        }
        match &self.shared {
            Some(held) => match Arc::try_clone(held) {
                Ok(copy) => Some(copy),
                Err(_) => None,
            },
            None => None,
        }
    }

    /// `Held::has_room`.
    pub(crate) fn has_room(&self, unit: u32) -> bool
        ensures { IsTrue result ↔ ((unit < length self.now.made) × (slice_index self.now.made unit + 1 < 2 ^ 32)) }
    {
        self.read().has_room(unit)
    }

    /// `Held::has_scope`.
    pub(crate) fn has_scope(&self, s: Scope) -> bool
        ensures { IsTrue result ↔ HasScope self.now.graph s }
    {
        self.read().has_scope(s)
    }

    /// `Held::is_closed`.
    pub(crate) fn is_closed(&self, s: Scope, l: Label) -> bool
        ensures { IsTrue result ↔ (IsOpen (state_of self.now) s l → ⊥) }
    {
        self.read().is_closed(s, l)
    }

    /// `Held::graph`.
    pub(crate) fn graph(&self, alloc: Global) -> Result<Graph<I::Datum>, AllocError>
        ensures { IfOk result (λ g. g ≡ self.now.graph) }
    {
        self.read().graph(alloc)
    }

    /// `Held::fresh`. Want of memory once the graph is shared.
    pub(crate) fn fresh(
        &mut self,
        unit: u32,
        labels: LabelSet,
        datum: bool,
    ) -> Result<Scope, AllocError>
        requires unit { unit < length self.old.made }
        requires room { slice_index self.old.made unit + 1 < 2 ^ 32 }
        ensures scope { IfOk result (λ s. s ≡ next_scope self.old unit) }
        ensures ok { OnOk result (self.new ≡ with_fresh self.old unit labels datum) }
        ensures err { OnErr result (self.new ≡ self.old) }
    {
        self.made = true;
        match &mut self.open {
            Some(held) => held.fresh(unit, labels, datum),
            None => Err(AllocError),
        }
    }

    /// `Held::add_edge`.
    pub(crate) fn add_edge(
        &mut self,
        unit: u32,
        from: Scope,
        l: Label,
        to: Scope,
    ) -> Result<(), AllocError>
        requires holds { HoldsRow self.old unit from l }
        requires target { HasScope self.old.graph to }
        ensures ok { OnOk result (self.new ≡ with_edge self.old (record { from = from; label = l; to = to })) }
        ensures err { OnErr result (self.new ≡ self.old) }
    {
        match &mut self.open {
            Some(held) => held.add_edge(unit, from, l, to),
            None => unreachable!(),
        }
    }

    /// `Held::set_datum`.
    pub(crate) fn set_datum(&mut self, unit: u32, s: Scope, d: I::Datum)
        requires holds { HoldsDatum self.old unit s }
        ensures set { self.new ≡ with_datum self.old unit s d }
    {
        match &mut self.open {
            Some(held) => held.set_datum(unit, s, d),
            None => unreachable!(),
        }
    }

    /// `Held::close_row`.
    pub(crate) fn close_row(&mut self, unit: u32, s: Scope, l: Label)
        requires holds { HoldsRow self.old unit s l }
        ensures closed { self.new ≡ without_row self.old unit s l }
    {
        match &mut self.open {
            Some(held) => held.close_row(unit, s, l),
            None => unreachable!(),
        }
    }

    /// `Held::end_unit`. What is shared has nothing to give up.
    pub(crate) fn end_unit(&mut self, unit: u32)
        ensures ended { self.new ≡ without_unit self.old unit }
    {
        match &mut self.open {
            Some(held) => held.end_unit(unit),
            None => {}
        }
    }
}
