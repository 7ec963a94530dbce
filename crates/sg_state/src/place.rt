ghost use Rattle.std.specs.Prelude.{◌≡◌, ◌<◌, ℕ, [], ◌↔◌, IfOk, OnOk, OnErr};
ghost use Rattle.std.specs.BTreeMap.{is_at};
ghost use Rattle.std.specs.List.{Contains};
ghost use Rattle.std.specs.Map.{lookup};
ghost use Rattle.std.specs.Option.{option_copied};
ghost use Rattle.std.specs.Ordering.{nat_cmp};
ghost use Rattle.sg_base.specs.List.{IsRising};
ghost use Rattle.sg_state.specs.declared.slot.Slot.TheVariants.{Empty};
ghost use Rattle.sg_state.specs.Place.{IsPlace, HasRow, HasHolder, KeepsPlace, AddsTarget, AddsHolder, LosesHolder, LosesUnit, IsFresh};

use crate::row::Row;
use crate::rows::Rows;
use crate::slot::Slot;
use crate::unit_set::UnitSet;
use sg_base::{Label, LabelSet, Scope, ScopeSet};
use std::alloc::{AllocError, Global};
use std::marker::Model;

/// What a scope has: its rows by the numbers of their labels, and its datum.
#[derive(Drop)]
pub struct Place<D> {
    rows: Rows,
    slot: Slot<D>,
}

impl<D> Model for Place<D> {
    ghost use Rattle.sg_state.specs.Place.{PlaceOf};

    ghost Value = { PlaceOf D };

    ghost use Rattle.sg_state.specs.Rows.{rows_of};

    ghost view = { λ p. record { rows = rows_of p.rows; slot = p.slot } };
}

impl<D> Place<D> {
    /// The place with no row and no datum.
    pub fn new() -> Place<D>
        ensures { result ≡ record { rows = []; slot = Empty } }
    {
        Place {
            rows: Rows::None,
            slot: Slot::Empty,
        }
    }

    /// The row of a label, if there is one, by a look-up among at most sixteen rows.
    pub fn row(&self, label: u8) -> Option<&Row>
        ensures { option_copied result ≡ lookup (is_at (nat_cmp label)) self.now.rows }
    {
        self.rows.row(label)
    }

    /// The units that hold the row of a label in rising order, by a look-up among at most sixteen rows.
    pub fn holders(&self, label: u8) -> &[u32]
        requires place { IsPlace self.now }
        ensures exact { (u : ℕ) → (Contains result.now u) ↔ (HasHolder self.now label u) }
        ensures rising { IsRising nat_cmp result.now }
    {
        match self.row(label) {
            Some(row) => row.holders.as_slice(),
            None => &[],
        }
    }

    /// The rows of the scope by the numbers of their labels.
    pub fn rows(&self) -> &[(u8, Row)]
        ensures { result.now ≡ self.now.rows }
    {
        self.rows.as_slice()
    }

    /// The datum of the scope.
    pub fn slot(&self) -> &Slot<D>
        ensures { result.now ≡ self.now.slot }
    {
        &self.slot
    }

    /// Puts a datum in the place of the one that was there.
    pub fn set_slot(&mut self, slot: Slot<D>)
    where
        D: Drop,
        ensures { self.new ≡ record { rows = self.old.rows; slot = slot } }
    {
        self.slot = slot;
    }

    /// Makes the row of a label, unless it is there.
    pub fn make_row(&mut self, alloc: Global, label: u8) -> Result<(), AllocError>
        requires labelled { label < 16 }
        requires place { IsPlace self.old }
        ensures ok { OnOk result (HasRow self.new label) }
        ensures same { KeepsPlace self.old self.new }
        ensures place { IsPlace self.new }
    {
        match self.rows.find(label) {
            Some(_at) => Ok(()),
            None => {
                let row = Row {
                    targets: ScopeSet::new(alloc),
                    holders: UnitSet::new(),
                };
                self.rows.insert(alloc, label, row)?;
                Ok(())
            }
        }
    }

    /// Adds a target to the row of a label.
    pub fn add_target(&mut self, label: u8, to: Scope) -> Result<(), AllocError>
        requires there { HasRow self.old label }
        requires place { IsPlace self.old }
        ensures ok { OnOk result (AddsTarget self.old self.new label to) }
        ensures place { IsPlace self.new }
        ensures err { OnErr result (self.new ≡ self.old) }
    {
        match self.rows.find(label) {
            Some(at) => self.rows.row_mut(at).targets.insert(to)?,
            None => {}
        }
        Ok(())
    }

    /// Adds a holder to the row of a label.
    pub fn add_holder(&mut self, alloc: Global, label: u8, unit: u32) -> Result<(), AllocError>
        requires there { HasRow self.old label }
        requires place { IsPlace self.old }
        ensures ok { OnOk result (AddsHolder self.old self.new label unit) }
        ensures place { IsPlace self.new }
    {
        match self.rows.find(label) {
            Some(at) => self.rows.row_mut(at).holders.insert(alloc, unit)?,
            None => {}
        }
        Ok(())
    }

    /// Takes a holder from the row of a label, if the unit holds it.
    pub fn remove_holder(&mut self, label: u8, unit: u32)
        requires place { IsPlace self.old }
        ensures gone { LosesHolder self.old self.new label unit }
        ensures place { IsPlace self.new }
    {
        match self.rows.find(label) {
            Some(at) => self.rows.row_mut(at).holders.remove(unit),
            None => {}
        }
    }

    /// Takes a unit from the holders of each row, and from the datum where it holds that. Looks at each label once.
    pub fn leave(&mut self, unit: u32)
    where
        D: Drop,
        requires place { IsPlace self.old }
        ensures gone { LosesUnit self.old self.new unit }
        ensures place { IsPlace self.new }
    {
        for label in 0..16u8 {
            self.remove_holder(label, unit);
        }
        self.slot.give_up(unit);
    }

    /// Makes a unit a holder of the row of a label, which is made if need be.
    pub fn give_row(&mut self, alloc: Global, label: u8, unit: u32) -> Result<(), AllocError>
        requires labelled { label < 16 }
        requires place { IsPlace self.old }
        ensures ok { OnOk result (AddsHolder self.old self.new label unit) }
        ensures place { IsPlace self.new }
    {
        self.make_row(alloc, label)?;
        self.add_holder(alloc, label, unit)?;
        Ok(())
    }

    /// Adds a target to the row of a label, which is made if need be.
    pub fn give_target(&mut self, alloc: Global, label: u8, to: Scope) -> Result<(), AllocError>
        requires labelled { label < 16 }
        requires place { IsPlace self.old }
        ensures ok { OnOk result (AddsTarget self.old self.new label to) }
        ensures place { IsPlace self.new }
    {
        self.make_row(alloc, label)?;
        self.add_target(label, to)?;
        Ok(())
    }

    /// The place of a scope that a unit has just made: the unit holds the rows of these labels, and the datum where one is
    /// wanted. Looks at each label once.
    pub fn fresh(
        alloc: Global,
        unit: u32,
        labels: LabelSet,
        datum: bool,
    ) -> Result<Place<D>, AllocError>
    where
        D: Drop,
        ensures { IfOk result (λ p. IsFresh p unit labels datum) }
    {
        let mut place = Place::new();
        place.set_slot(Slot::fresh(unit, datum));
        for label in 0..16u8 {
            if labels.has(Label::new(label)) {
                place.give_row(alloc, label, unit)?;
            }
        }
        Ok(place)
    }
}
