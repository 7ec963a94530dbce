ghost use Rattle.std.specs.Prelude.{◌≡◌, ◌<◌, ◌+◌, ◌^◌, ℕ, IsTrue, ◌↔◌, length, slice_index, IfOk, IfSome, IfNone, OnOk, OnErr};
ghost use Rattle.std.specs.List.{Contains};
ghost use Rattle.std.specs.Ordering.{nat_cmp};
ghost use Rattle.sg_base.specs.declared.scope.Scope.{Scope as ScopeOf};
ghost use Rattle.sg_base.specs.Graph.{HasScope, HasEdge, row_of};
ghost use Rattle.sg_base.specs.List.{IsRising};
ghost use Rattle.sg_base.specs.Scope.{scope_cmp};
ghost use Rattle.sg_base.specs.State.{IsOpen, IsUnset};
ghost use Rattle.sg_state.specs.declared.need.Need.{Need as NeedOf};
ghost use Rattle.sg_state.specs.DatumState.{IsDatumState};
ghost use Rattle.sg_state.specs.Held.{IsHeld, IsKeyed, IsRest, HoldsRow, HoldsDatum, state_of, next_scope, with_no_scope, with_fresh, with_edge, with_datum, without_row, without_unit};
ghost use Rattle.sg_state.specs.Need.{need_cmp, HoldsAlone};
ghost use Rattle.sg_state.specs.Opening.{IsSoundOpening, IsOpening, opening_of, opened_of};

use crate::datum_state::DatumState;
use crate::need::Need;
use crate::opening::Opening;
use crate::part::Part;
use crate::parts::{Parts, part_of, parts_of};
use crate::place::Place;
use crate::places::{Places, leave_all};
use crate::scope_list::ScopeList;
use crate::slot::Slot;
use crate::{copied, freed, lists, opened};
use sg_base::{Graph, Instance, Label, LabelSet, Scope};
use std::alloc::{AllocError, Global};
use std::collections::BTreeMap;
use std::marker::Model;

/// A graph to which units still add: its scopes, edges and data, the holders of its rows and of its unset data, and how
/// many scopes each unit has made. A row is closed where it has no holder. After want of memory nothing has changed. A look-up
/// takes constant time, on average where it is by hash: the scopes of an opening with serials below their number are found by a
/// table, and others by hash. The parts of a scope's rows are found by a look at each, and by hash behind the first sixteen.
#[derive(Drop)]
pub struct Held<I: Instance> {
    alloc: Global,
    places: Places<I::Datum>,
    made: Vec<u32>,
    lists: BTreeMap<u32, ScopeList>,
    parts: Parts,
}

impl<I: Instance> Model for Held<I> {
    ghost use Rattle.sg_state.specs.Held.{HeldOf};

    ghost Value = { HeldOf I.Datum };

    ghost use Rattle.sg_state.specs.Part.{AreParts, rest_in};
    ghost use Rattle.sg_state.specs.View.{seen, IsKept};

    ghost view = { λ h. seen h.places.entries h.made.items (rest_in h.parts.entries) };

    ghost invariant = { λ h. IsKept h.places.entries h.made.items h.lists.entries × AreParts I.datum_key h.places.entries h.parts.entries };
}

impl<I: Instance> Held<I> {
    /// The held graph with no scope, for the units with numbers below this one.
    pub fn new(alloc: Global, units: u32) -> Result<Held<I>, AllocError>
        ensures empty { IfOk result (λ h. h ≡ with_no_scope units) }
        ensures sound { IfOk result IsHeld }
    {
        let made = vec![in alloc; 0u32; units as usize]?;
        Ok(Held {
            alloc,
            places: Places::new(alloc),
            made,
            lists: BTreeMap::new(alloc),
            parts: Parts::new(alloc),
        })
    }

    /// The held graph of a sound opening, whose edges to scopes without a datum are the rest of their rows. Costs look-ups
    /// for each thing that the opening lists, for each edge moving the targets above it in its row and in its part of the
    /// row, and for each hold of a row moving the units above it among the row's holders.
    pub fn open(alloc: Global, o: Opening<I::Datum>) -> Result<Held<I>, AllocError>
        requires sound { IsSoundOpening (opening_of o) }
        ensures opened { IfOk result (λ h. h ≡ opened_of (opening_of o)) }
        ensures begins { IfOk result IsOpening }
    {
        let made = vec![in alloc; 0u32; o.units as usize]?;
        let mut lists = BTreeMap::new(alloc);
        let mut places = opened::bare(alloc, &o.scopes)?;
        opened::add_edges(alloc, &mut places, &o.edges)?;
        opened::add_row_holds(alloc, &mut places, &mut lists, &o.row_holds)?;
        opened::add_datum_holds(alloc, &mut places, &mut lists, &o.datum_holds)?;
        opened::add_given(&mut places, o.given);
        let parts = parts_of::<I>(alloc, &places, &o.edges)?;
        Ok(Held {
            alloc,
            places,
            made,
            lists,
            parts,
        })
    }

    /// Adds an edge to a row that the unit holds, in the time of look-ups, of a binary search in the row and of moving
    /// its targets above the new one. The target has a key from then on if it has a datum now, and is one of the rest of the
    /// row for good if it has none.
    pub fn add_edge(
        &mut self,
        unit: u32,
        from: Scope,
        l: Label,
        to: Scope,
    ) -> Result<(), AllocError>
        requires holds { HoldsRow self.old unit from l }
        requires target { HasScope self.old.graph to }
        ensures ok { OnOk result (self.new ≡ with_edge self.old (record { from = from; label = l; to = to })) }
        ensures sound { IsHeld self.new }
        ensures err { OnErr result (self.new ≡ self.old) }
    {
        let label = l.number();
        if self.places.has_target(from, label, to) {
            return Ok(());
        }
        let part = part_of::<I>(&self.places, from, label, to);
        self.parts.put(self.alloc, part, to)?;
        match self.places.add_target(from, label, to) {
            Ok(()) => Ok(()),
            Err(error) => {
                self.parts.take(part, to);
                Err(error)
            }
        }
    }

    /// Sets a datum that the unit holds, by a look-up.
    pub fn set_datum(&mut self, unit: u32, s: Scope, d: I::Datum)
        requires holds { HoldsDatum self.old unit s }
        ensures set { self.new ≡ with_datum self.old unit s d }
        ensures sound { IsHeld self.new }
    {
        self.places.set_slot(s, Slot::Given(d));
    }

    /// Gives up a row that the unit holds, by look-ups. The other holders stay.
    pub fn close_row(&mut self, unit: u32, s: Scope, l: Label)
        requires holds { HoldsRow self.old unit s l }
        ensures closed { self.new ≡ without_row self.old unit s l }
        ensures sound { IsHeld self.new }
    {
        let label = l.number();
        self.places.remove_holder(s, label, unit);
    }

    /// Gives up all that the unit holds. Its unset data are absent from then on. Costs a look-up for each hold that the unit
    /// was ever given, though it may have given that up: each is looked at once.
    pub fn end_unit(&mut self, unit: u32)
        ensures ended { self.new ≡ without_unit self.old unit }
        ensures sound { IsHeld self.new }
    {
        let list = lists::listed(&self.lists, unit);
        leave_all(&mut self.places, list, unit);
    }

    /// The targets of a row in rising order, by look-ups. Empty where the scope is not one of the graph.
    pub fn row(&self, s: Scope, l: Label) -> &[Scope]
        ensures row { result.now ≡ row_of self.now.graph s l }
        ensures exact { (t : ScopeOf) → (Contains result.now t) ↔ (HasEdge self.now.graph s l t) }
        ensures rising { IsRising scope_cmp result.now }
        ensures sound { IsHeld self.now }
    {
        let label = l.number();
        match self.places.row(s, label) {
            Some(row) => row.targets.as_slice(),
            None => &[],
        }
    }

    /// The targets of a row whose datum has this key, where the datum was there when the edge was added or at the
    /// opening, in rising order, by a look-up.
    pub fn row_keyed(&self, s: Scope, l: Label, key: u64) -> &[Scope]
        ensures exact { (t : ScopeOf) → (Contains result.now t) ↔ (IsKeyed I.datum_key self.now s l key t) }
        ensures rising { IsRising scope_cmp result.now }
        ensures sound { IsHeld self.now }
    {
        self.parts.targets(Part::Keyed(s, l.number(), key))
    }

    /// The targets of a row that had no datum when the edge was added or at the opening, in rising order, by a look-up.
    /// They and the targets of each key are the row.
    pub fn row_rest(&self, s: Scope, l: Label) -> &[Scope]
        ensures exact { (t : ScopeOf) → (Contains result.now t) ↔ (IsRest self.now s l t) }
        ensures rising { IsRising scope_cmp result.now }
        ensures sound { IsHeld self.now }
    {
        self.parts.targets(Part::Rest(s, l.number()))
    }

    /// The units that hold a row in rising order, by look-ups.
    pub fn holders(&self, s: Scope, l: Label) -> &[u32]
        ensures exact { (u : ℕ) → (Contains result.now u) ↔ (HoldsRow self.now u s l) }
        ensures rising { IsRising nat_cmp result.now }
        ensures sound { IsHeld self.now }
    {
        let label = l.number();
        match self.places.row(s, label) {
            Some(row) => row.holders.as_slice(),
            None => &[],
        }
    }

    /// Whether no unit holds the row, by look-ups.
    pub fn is_closed(&self, s: Scope, l: Label) -> bool
        ensures { IsTrue result ↔ (IsOpen (state_of self.now) s l → ⊥) }
    {
        self.holders(s, l).is_empty()
    }

    /// The targets of a row that no unit holds, in rising order, by look-ups. None exactly where the row is open, and empty
    /// where the scope is not one of the graph.
    pub fn closed_row(&self, s: Scope, l: Label) -> Option<&[Scope]>
        ensures closed { IfSome result (λ row. (IsOpen (state_of self.now) s l → ⊥) × (row.now ≡ row_of self.now.graph s l)) }
        ensures open { IfNone result (IsOpen (state_of self.now) s l) }
        ensures sound { IsHeld self.now }
    {
        let label = l.number();
        match self.places.row(s, label) {
            Some(row) => {
                let holders = row.holders.as_slice();
                if holders.is_empty() {
                    Some(row.targets.as_slice())
                } else {
                    None
                }
            }
            None => Some(&[]),
        }
    }

    /// The unit that holds the datum of a scope, if the datum is unset, by a look-up.
    pub fn datum_holder(&self, s: Scope) -> Option<u32>
        ensures found { IfSome result (λ u. HoldsDatum self.now u s) }
        ensures none { IfNone result (IsUnset (state_of self.now) s → ⊥) }
        ensures sound { IsHeld self.now }
    {
        match self.places.slot(s) {
            Some(Slot::Waits(unit)) => Some(*unit),
            Some(Slot::Given(_)) => None,
            Some(Slot::Empty) => None,
            None => None,
        }
    }

    /// The datum of a scope, by a look-up. Absent where the scope is not one of the graph.
    pub fn datum(&self, s: Scope) -> DatumState<'_, I::Datum>
        ensures { IsDatumState self.now s result }
    {
        match self.places.slot(s) {
            Some(Slot::Given(datum)) => DatumState::Set(datum),
            Some(Slot::Waits(_)) => DatumState::Unset,
            Some(Slot::Empty) => DatumState::Absent,
            None => DatumState::Absent,
        }
    }

    /// Whether a scope is one of the graph, by a look-up.
    pub fn has_scope(&self, s: Scope) -> bool
        ensures { IsTrue result ↔ HasScope self.now.graph s }
    {
        self.places.slot(s).is_some()
    }

    /// A copy of the graph, with a copy of each datum. Costs sorting the scopes, and a look-up for each edge and datum.
    pub fn graph(&self, alloc: Global) -> Result<Graph<I::Datum>, AllocError>
        ensures { IfOk result (λ g. g ≡ self.now.graph) }
    {
        let mut graph = Graph::new(alloc);
        let places = self.places.all();
        let scopes = copied::rising_scopes(alloc, places)?;
        copied::add_scopes(&mut graph, &scopes)?;
        copied::add_edges(places, &mut graph)?;
        copied::add_data::<I>(alloc, places, &mut graph)?;
        Ok(graph)
    }

    /// Whether the unit is one of the graph and may make one more scope: each makes fewer than 2^32 - 1. Takes constant time.
    pub fn has_room(&self, unit: u32) -> bool
        ensures { IsTrue result ↔ ((unit < length self.now.made) × (slice_index self.now.made unit + 1 < 2 ^ 32)) }
    {
        match self.made.get(unit as usize) {
            Some(count) => *count < u32::MAX,
            None => false,
        }
    }

    /// Makes the unit's next scope. The unit holds its rows with these labels, and its datum where that is wanted. Costs
    /// look-ups and at most sixteen small insertions.
    pub fn fresh(&mut self, unit: u32, labels: LabelSet, datum: bool) -> Result<Scope, AllocError>
        requires unit { unit < length self.old.made }
        requires room { slice_index self.old.made unit + 1 < 2 ^ 32 }
        ensures scope { IfOk result (λ s. s ≡ next_scope self.old unit) }
        ensures ok { OnOk result (self.new ≡ with_fresh self.old unit labels datum) }
        ensures sound { IsHeld self.new }
        ensures err { OnErr result (self.new ≡ self.old) }
    {
        let serial = self.made[unit as usize];
        let s = Scope { unit, serial };
        let place = Place::fresh(self.alloc, unit, labels, datum)?;
        lists::note(self.alloc, &mut self.lists, unit, s)?;
        self.places.insert(s, place)?;
        self.made[unit as usize] = serial + 1;
        Ok(s)
    }

    /// The rising list of the rows and unset data that the unit alone holds: rows by scope and label, then data by
    /// scope. Costs sorting the scopes at which the unit was ever given a hold, though it may have given that up, and one
    /// look-up for each: where it is asked once, as the unit ends, each hold that was given is looked at once.
    pub fn frees(&self, unit: u32) -> Result<Vec<Need>, AllocError>
        ensures rising { IfOk result (λ ns. IsRising need_cmp ns.items) }
        ensures exact { IfOk result (λ ns. (n : NeedOf) → (Contains ns.items n) ↔ (HoldsAlone self.now unit n)) }
        ensures sound { IsHeld self.now }
    {
        let list = lists::rising(self.alloc, &self.lists, unit)?;
        let needs = freed::needs(self.alloc, &self.places, &list, unit)?;
        Ok(needs)
    }
}
