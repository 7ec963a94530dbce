//! The scopes of a held graph with what they have, and what changes at one of them.

ghost use Rattle.std.specs.Prelude.{◌≡◌, ◌<◌, ◌↔◌, [], map, IsTrue, IfSome, IfNone, IfOk, OnOk, OnErr};
ghost use Rattle.std.specs.BTreeMap.{is_at, insert_entry};
ghost use Rattle.std.specs.List.{Contains};
ghost use Rattle.std.specs.Map.{lookup};
ghost use Rattle.std.specs.Option.{option_copied};
ghost use Rattle.sg_base.specs.declared.scope.Scope.{Scope as ScopeOf};
ghost use Rattle.sg_base.specs.List.{IsDistinct, IsRising};
ghost use Rattle.sg_base.specs.Scope.{scope_cmp};
ghost use Rattle.sg_state.specs.Place.{PlaceOf, AddsTarget, AddsHolder, LosesHolder};
ghost use Rattle.sg_state.specs.View.{ArePlaces, ChangesPlace, EdgeAt, HasKey, RowAt, RowIs, SlotAt, LeavesPlace, LeavesAll};

use crate::by_scope::ByScope;
use crate::place::Place;
use crate::row::Row;
use crate::slot::Slot;
use sg_base::Scope;
use std::alloc::{AllocError, Global};
use std::marker::Model;

/// The scopes with what they have, which contracts see in the rising order of the scopes.
#[derive(Drop)]
pub struct Places<D> {
    found: ByScope<Place<D>>,
}

impl<D> Model for Places<D> {
    ghost use Rattle.std.specs.Prelude.{map};
    ghost use Rattle.sg_base.specs.List.{IsDistinct};
    ghost use Rattle.sg_state.specs.ByScope.{IsIndexed};
    ghost use Rattle.sg_state.specs.View.{PlacesOf, in_order};

    ghost Value = { PlacesOf D };

    ghost view = { λ p. record { entries = in_order p.found.all.items } };

    ghost invariant = { λ p. IsDistinct (map (λ e. e.0) p.found.all.items) × IsIndexed p.found.index p.found.all.items };
}

impl<D> Places<D> {
    /// No scope.
    pub fn new(alloc: Global) -> Places<D>
        ensures { result.entries ≡ [] }
    {
        Places {
            found: ByScope::new(alloc),
        }
    }

    /// No scope, with room for as many as this.
    pub fn with_room(alloc: Global, scopes: usize) -> Result<Places<D>, AllocError>
        ensures { IfOk result (λ m. m.entries ≡ []) }
    {
        let found = ByScope::with_room(alloc, scopes)?;
        Ok(Places { found })
    }

    /// Adds a scope that is not there, with what it has, in constant time on average.
    pub fn insert(&mut self, s: Scope, place: Place<D>) -> Result<(), AllocError>
    where
        D: Drop,
        requires new { HasKey self.old.entries s → ⊥ }
        ensures entries { OnOk result (self.new.entries ≡ insert_entry scope_cmp self.old.entries s place) }
        ensures ordered { OnOk result (IsRising scope_cmp (map (λ p. p.0) self.new.entries)) }
        ensures err { OnErr result (self.new.entries ≡ self.old.entries) }
    {
        self.found.insert(s, place)?;
        Ok(())
    }

    /// The scopes with what they have, in the order in which they came.
    pub fn all(&self) -> &[(Scope, Place<D>)]
        ensures exact { (p : ScopeOf × PlaceOf D) → (Contains result.now p) ↔ (Contains self.now.entries p) }
        ensures once { IsDistinct (map (λ p. p.0) result.now) }
    {
        self.found.all.as_slice()
    }

    /// Adds a target to a row, by a look-up.
    pub fn add_target(&mut self, s: Scope, label: u8, to: Scope) -> Result<(), AllocError>
        requires there { RowAt self.old.entries s label }
        requires places { ArePlaces self.old.entries }
        ensures ok { OnOk result (ChangesPlace (λ p q. AddsTarget p q label to) self.old.entries self.new.entries s) }
        ensures err { OnErr result (self.new.entries ≡ self.old.entries) }
    {
        match self.found.find(s) {
            Some(at) => {
                self.found.all[at].1.add_target(label, to)?;
                Ok(())
            }
            None => Ok(()),
        }
    }

    /// Adds a target to a row, which is made if need be, by a look-up.
    pub fn put_target(
        &mut self,
        alloc: Global,
        s: Scope,
        label: u8,
        to: Scope,
    ) -> Result<(), AllocError>
        requires there { HasKey self.old.entries s }
        requires labelled { label < 16 }
        requires places { ArePlaces self.old.entries }
        ensures ok { OnOk result (ChangesPlace (λ p q. AddsTarget p q label to) self.old.entries self.new.entries s) }
    {
        match self.found.find(s) {
            Some(at) => {
                self.found.all[at].1.give_target(alloc, label, to)?;
                Ok(())
            }
            None => Ok(()),
        }
    }

    /// Makes a unit a holder of a row, which is made if need be, by a look-up.
    pub fn put_holder(
        &mut self,
        alloc: Global,
        s: Scope,
        label: u8,
        unit: u32,
    ) -> Result<(), AllocError>
        requires there { HasKey self.old.entries s }
        requires labelled { label < 16 }
        requires places { ArePlaces self.old.entries }
        ensures ok { OnOk result (ChangesPlace (λ p q. AddsHolder p q label unit) self.old.entries self.new.entries s) }
    {
        match self.found.find(s) {
            Some(at) => {
                self.found.all[at].1.give_row(alloc, label, unit)?;
                Ok(())
            }
            None => Ok(()),
        }
    }

    /// Takes a holder from a row, if the unit holds it, by a look-up.
    pub fn remove_holder(&mut self, s: Scope, label: u8, unit: u32)
        requires there { HasKey self.old.entries s }
        requires places { ArePlaces self.old.entries }
        ensures { ChangesPlace (λ p q. LosesHolder p q label unit) self.old.entries self.new.entries s }
    {
        match self.found.find(s) {
            Some(at) => self.found.all[at].1.remove_holder(label, unit),
            None => {}
        }
    }

    /// Puts a datum in the place of the one that was there, by a look-up.
    pub fn set_slot(&mut self, s: Scope, slot: Slot<D>)
    where
        D: Drop,
        requires there { HasKey self.old.entries s }
        requires places { ArePlaces self.old.entries }
        ensures { ChangesPlace (λ p q. q ≡ record { rows = p.rows; slot = slot }) self.old.entries self.new.entries s }
    {
        match self.found.find(s) {
            Some(at) => self.found.all[at].1.set_slot(slot),
            None => {}
        }
    }

    /// Takes a unit from the holders of all that a scope has, if the scope is there, by a look-up.
    pub fn leave(&mut self, s: Scope, unit: u32)
    where
        D: Drop,
        requires places { ArePlaces self.old.entries }
        ensures { LeavesPlace self.old.entries self.new.entries s unit }
    {
        match self.found.find(s) {
            Some(at) => self.found.all[at].1.leave(unit),
            None => {}
        }
    }

    /// What a scope has, if the scope is there, by a look-up.
    pub fn place(&self, s: Scope) -> Option<&Place<D>>
        ensures { lookup (is_at (scope_cmp s)) self.now.entries ≡ option_copied result }
    {
        match self.found.find(s) {
            Some(at) => Some(&self.found.all[at].1),
            None => None,
        }
    }

    /// The row of a scope and a label, if it was made, by look-ups.
    pub fn row(&self, s: Scope, label: u8) -> Option<&Row>
        ensures found { IfSome result (λ r. RowIs self.now.entries s label r.now) }
        ensures none { IfNone result (ArePlaces self.now.entries → RowAt self.now.entries s label → ⊥) }
    {
        match self.place(s) {
            Some(place) => place.row(label),
            None => None,
        }
    }

    /// Whether a row has this target, by look-ups and a binary search in the row.
    pub fn has_target(&self, s: Scope, label: u8, to: Scope) -> bool
        requires places { ArePlaces self.now.entries }
        ensures { IsTrue result ↔ EdgeAt self.now.entries s label to }
    {
        match self.row(s, label) {
            Some(row) => row.targets.contains(to),
            None => false,
        }
    }

    /// The datum of a scope, if the scope is there, by a look-up.
    pub fn slot(&self, s: Scope) -> Option<&Slot<D>>
        ensures found { IfSome result (λ x. SlotAt self.now.entries s x.now) }
        ensures none { IfNone result (HasKey self.now.entries s → ⊥) }
    {
        match self.place(s) {
            Some(place) => Some(place.slot()),
            None => None,
        }
    }
}

/// Takes a unit from the holders of all that the scopes of a list have, by a look-up for each.
pub fn leave_all<D: Drop>(places: &mut Places<D>, list: &[Scope], unit: u32)
    requires places { ArePlaces places.old.entries }
    ensures { LeavesAll places.old.entries places.new.entries list.now unit }
{
    for s in list {
        places.leave(*s, unit);
    }
}
